// What is known of the cells that an expression looks at, and its surroundings.
ghost use Rattle.std.specs.Prelude.{map};
ghost use Rattle.arm_value.specs.View.{json};
ghost use Rattle.arm_value.specs.Look.{fold};
ghost use Rattle.reading.specs.Knowledge.{Known, told};
ghost use Rattle.arm_env.specs.Look.{Look, Fact, parameter, variable, output, state, named, deployment};
ghost use Rattle.arm_env.specs.Look.{seen, json_in, key_in, truth_in};
ghost use Rattle.arm_env.specs.Held.{listing};
ghost use Rattle.arm_env.specs.Answer.{Gives};
ghost use Rattle.arm_env.specs.Sight.{declared_of};

use crate::env::Looping;
use crate::stop::Stop;
use arm_ids::{Key, Place};
use arm_value::{Text, Value};
use std::alloc::Global;

/// The surroundings of an expression, which are always known.
#[derive(Drop)]
pub struct Around<'a> {
    /// The loops around, the nearest first.
    pub loops: &'a [Looping],
    /// Where the template is deployed.
    pub place: &'a Place,
}

/// An output of a nested deployment, as its template declares it.
#[derive(Drop)]
pub struct Declared<'a> {
    /// Its name, as it is spelled.
    pub name: &'a Text,
    /// Its type, as it is spelled.
    pub kind: &'a Text,
}

/// What is known of the cells that an expression looks at.
///
/// Each call looks at one cell. It returns what the cell has, or a `Stop`: `NoValue` where it has
/// none, `Waits` with the cell where nothing is known of it yet.
pub trait Entries {
    /// What is known of each cell.
    ghost known: { Self → Look → Known Fact };

    /// The value of a parameter. One that the template does not have has none.
    fn parameter<'a>(&'a self, alloc: Global, name: &Text) -> Result<&'a Value, Stop>
        ensures { Gives (λ v. json v.now) result
            (told (known self.now) (seen json_in (parameter (fold name.now)))) };

    /// The value of a variable. One that the template does not have has none.
    fn variable<'a>(&'a self, alloc: Global, name: &Text) -> Result<&'a Value, Stop>
        ensures { Gives (λ v. json v.now) result
            (told (known self.now) (seen json_in (variable (fold name.now)))) };

    /// The value of an output of the nested deployment at a key. One that it does not have, or that
    /// its condition leaves away, has none.
    fn output<'a>(&'a self, alloc: Global, key: &Key, name: &Text) -> Result<&'a Value, Stop>
        ensures { Gives (λ v. json v.now) result
            (told (known self.now) (seen json_in (output key.now (fold name.now)))) };

    /// The state of the resource at a key.
    fn state<'a>(&'a self, alloc: Global, key: &Key) -> Result<&'a Value, Stop>
        ensures { Gives (λ v. json v.now) result
            (told (known self.now) (seen json_in (state key.now))) };

    /// The key that a text of `reference` stands for which is no id: none where it stands for
    /// nothing, or for more than one.
    fn named(&self, alloc: Global, text: &Text) -> Result<Key, Stop>
        ensures { Gives (λ k. k) result (told (known self.now) (seen key_in (named text.now))) };

    /// Whether a nested deployment can be seen at a key, sought from the template instance
    /// outwards. One that its condition leaves away has no value, and nothing is sought further
    /// outwards; one of the same key in the same instance which is not left away comes first.
    fn is_deployment(&self, alloc: Global, key: &Key) -> Result<bool, Stop>
        ensures { Gives (λ b. b) result
            (told (known self.now) (seen truth_in (deployment key.now))) };

    /// The outputs that the nested deployment at a key has, without those that their conditions
    /// leave away.
    fn outputs<'a>(&'a self, alloc: Global, key: &Key) -> Result<Vec<Declared<'a>>, Stop>
        ensures { Gives (λ v. map declared_of v.items) result
            (told (known self.now) (listing key.now)) };
}
