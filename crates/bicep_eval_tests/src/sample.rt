// A file whose variables have given values.
ghost use Rattle.std.specs.Prelude.{[]};
ghost use Rattle.arm_value.specs.Json.{Json};
ghost use Rattle.arm_value.specs.View.{json};
ghost use Rattle.reading.specs.Knowledge.{told};
ghost use Rattle.deploy_cells.specs.Cells.{count};
ghost use Rattle.bicep_outcomes.specs.Outcomes.{Gives};
ghost use Rattle.bicep_eval_tests.specs.Sample.{variable_value, known_of, sight_of};

use arm_ids::{Place, ResourceId};
use arm_value::{OutOfMemory, Text, Value};
use bicep_eval::{Stop, Surroundings, Turn};
use bicep_outcomes::joins::copied;
use bicep_outcomes::loops::item_of;
use bicep_resolved::Target;
use std::alloc::Global;

/// What is known of a variable.
#[derive(Drop)]
pub enum Slot {
    /// It has this value.
    Known(Value),
    /// It has no value.
    Absent,
    /// It is not known yet.
    Late,
}

/// A file of variables and resources. Each loop of resources runs over the variable of number 1, and an element has its
/// item as a name; a resource outside loops has the variable of number 2.
#[derive(Drop)]
pub struct Sample {
    /// Where it is deployed.
    pub place: Place,
    /// The variables by their numbers; one that is not listed has no value.
    pub slots: Vec<Slot>,
    /// The id of each resource.
    pub id: ResourceId,
    /// The state of each resource.
    pub state: Value,
}

// The variable of a number.
fn variable_of<'a>(slots: &'a [Slot], number: usize) -> Result<&'a Value, Stop>
    ensures { (j : Json) → Gives (λ n. count [] n) (λ v. json v.now) result
        (told (known_of j) (variable_value slots.now number)) }
{
    match slots.get(number) {
        Some(slot) => match slot {
            Slot::Known(value) => Ok(value),
            Slot::Absent => Err(Stop::NoValue),
            Slot::Late => Err(Stop::Waits(number)),
        },
        None => Err(Stop::NoValue),
    }
}

impl Surroundings for Sample {
    ghost sight = { sight_of };

    fn place<'a>(&'a self) -> &'a Place {
        &self.place
    }

    fn parameter<'a>(&'a self, _alloc: Global, _number: usize) -> Result<&'a Value, Stop> {
        Err(Stop::NoValue)
    }

    fn variable<'a>(&'a self, _alloc: Global, number: usize) -> Result<&'a Value, Stop> {
        variable_of(self.slots.as_slice(), number)
    }

    fn items<'a>(&'a self, _alloc: Global, _number: usize) -> Result<&'a Value, Stop> {
        variable_of(self.slots.as_slice(), 1)
    }

    fn name(&self, alloc: Global, _number: usize, turns: &[Turn]) -> Result<Value, Stop> {
        if turns.is_empty() {
            copied(alloc, variable_of(self.slots.as_slice(), 2))
        } else {
            item_of(alloc, turns, 0)
        }
    }

    fn id(&self, alloc: Global, _number: usize, _turns: &[Turn]) -> Result<ResourceId, Stop> {
        match self.id.copy(alloc) {
            Ok(id) => Ok(id),
            Err(_) => Err(Stop::OutOfMemory),
        }
    }

    fn kind(&self, alloc: Global, _number: usize) -> Result<Text, OutOfMemory> {
        Ok(Text::from_string(String::new(alloc)))
    }

    fn version(&self, alloc: Global, _number: usize) -> Result<Text, OutOfMemory> {
        Ok(Text::from_string(String::new(alloc)))
    }

    fn state<'a>(&'a self, _alloc: Global, _id: &ResourceId) -> Result<&'a Value, Stop> {
        Ok(&self.state)
    }

    fn output<'a>(
        &'a self,
        _alloc: Global,
        _target: Target,
        _number: usize,
        _name: Result<Value, Stop>,
    ) -> Result<&'a Value, Stop> {
        Err(Stop::NoValue)
    }
}
