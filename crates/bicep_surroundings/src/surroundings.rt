// What surrounds an expression: the cells, the instance of its file, and what the declarations of the file mean.
ghost use Rattle.std.specs.Prelude.{◌≡◌, IfOk};
ghost use Rattle.arm_value.specs.Json.{Json};
ghost use Rattle.arm_value.specs.View.{json};
ghost use Rattle.arm_ids.specs.Id.{folded};
ghost use Rattle.reading.specs.Reading.{read};
ghost use Rattle.reading.specs.Knowledge.{told};
ghost use Rattle.deploy_cells.specs.Cells.{state};
ghost use Rattle.deploy_cells.specs.Guarded.{Reads};
ghost use Rattle.bicep_meaning.specs.Files.{type_of};
ghost use Rattle.bicep_meaning.specs.Meaning.{parameter_entry, output_name, output_value};
ghost use Rattle.bicep_outcomes.specs.Outcomes.{Gives};
ghost use Rattle.bicep_surroundings.specs.Sight.{Sight, Answers};

use arm_ids::{Place, ResourceId};
use arm_value::{OutOfMemory, Text, Value};
use bicep_outcomes::Stop;
use bicep_outcomes::loops::Turn;
use bicep_resolved::Target;
use std::alloc::Global;

/// What surrounds an expression. A number is that of a symbol of the file.
///
/// A call that looks something up returns what its reading gives: a value, or a `Stop`. `NoValue` says that there is
/// none, and `Waits` has the number of the cell that is read first of what is not known yet.
pub trait Surroundings {
    /// What is known, and of which instance of a file.
    ghost sight: { Self → Sight };

    /// Where the program is deployed.
    fn place<'a>(&'a self) -> &'a Place
        ensures { result.now ≡ (sight self.now).here.place };

    /// The value of a parameter.
    fn parameter<'a>(&'a self, alloc: Global, number: usize) -> Result<&'a Value, Stop>
        ensures { Gives (sight self.now).cell (λ v. json v.now) result
            (told (sight self.now).known (parameter_entry (sight self.now).here number)) };

    /// The value of a variable.
    fn variable<'a>(&'a self, alloc: Global, number: usize) -> Result<&'a Value, Stop>
        ensures { Gives (sight self.now).cell (λ v. json v.now) result
            (told (sight self.now).known ((sight self.now).around.variable number)) };

    /// What a loop of resources or modules runs over.
    fn items<'a>(&'a self, alloc: Global, number: usize) -> Result<&'a Value, Stop>
        ensures { Gives (sight self.now).cell (λ v. json v.now) result
            (told (sight self.now).known ((sight self.now).around.items number)) };

    /// The name of a resource or a module, with the loop around its declaration, where there is one.
    fn name(&self, alloc: Global, number: usize, turns: &[Turn]) -> Result<Value, Stop>
        ensures { Answers (sight self.now) turns.now json result
            ((sight self.now).around.name number) };

    /// The id of a resource, with the loop around its declaration, where there is one.
    fn id(&self, alloc: Global, number: usize, turns: &[Turn]) -> Result<ResourceId, Stop>
        ensures { Answers (sight self.now) turns.now (λ i. i) result
            ((sight self.now).around.id number) };

    /// The whole type of a resource.
    fn kind(&self, alloc: Global, number: usize) -> Result<Text, OutOfMemory>
        ensures { IfOk result (λ t. t ≡ (type_of (sight self.now).here.file number).kind) };

    /// The version of a resource.
    fn version(&self, alloc: Global, number: usize) -> Result<Text, OutOfMemory>
        ensures { IfOk result (λ t. t ≡ (type_of (sight self.now).here.file number).version) };

    /// The state at the key of an id.
    fn state<'a>(&'a self, alloc: Global, id: &ResourceId) -> Result<&'a Value, Stop>
        ensures { Gives (sight self.now).cell (λ v. json v.now) result
            (told (sight self.now).known (read (state (folded id.now)))) };

    /// The output of a number of the module of a name.
    fn output<'a>(
        &'a self,
        alloc: Global,
        target: Target,
        number: usize,
        name: Result<Value, Stop>,
    ) -> Result<&'a Value, Stop>
        ensures { (r : Reads Json) → Gives (sight self.now).cell json name (told (sight self.now).known r)
            → Gives (sight self.now).cell (λ v. json v.now) result (told (sight self.now).known
            (output_value (sight self.now).here (output_name (sight self.now).here target number) r)) };
}
