// Names, and fields and outputs of resources and modules.
ghost use Rattle.std.specs.Prelude.{◌≡◌, ℕ, List, Some, IfOk, chars, map, option_to_list};
ghost use Rattle.arm_value.specs.Json.{text};
ghost use Rattle.arm_value.specs.View.{json};
ghost use Rattle.arm_ids.specs.Id.{text_of};
ghost use Rattle.reading.specs.Knowledge.{told};
ghost use Rattle.deploy_cells.specs.Guarded.{Reads};
ghost use Rattle.bicep_meaning.specs.Meaning.{named, field_value, state_member};
ghost use Rattle.bicep_outcomes.specs.Outcomes.{Gives, IsFound, Then};
ghost use Rattle.bicep_surroundings.specs.Sight.{Answers, module_output};

use crate::surroundings::Surroundings;
use arm_env::stop::let_go;
use arm_ids::ResourceId;
use arm_value::{OutOfMemory, Text, Value};
use bicep_outcomes::Stop;
use bicep_outcomes::accesses::looked;
use bicep_outcomes::joins::copied;
use bicep_outcomes::loops::{Turn, index_of, item_of};
use bicep_resolved::{Field, Meaning, Target};
use std::alloc::Global;

/// The value of a name inside loops.
pub fn named<K: Surroundings>(
    alloc: Global,
    around: &K,
    meaning: Meaning,
    turns: &[Turn],
) -> Result<Value, Stop>
    ensures { Answers (K.sight around.now) turns.now json result
        (named (K.sight around.now).here (K.sight around.now).around meaning) }
{
    match meaning {
        Meaning::Parameter(number) => copied(alloc, around.parameter(alloc, number)),
        Meaning::Variable(number) => copied(alloc, around.variable(alloc, number)),
        Meaning::Item(outwards) => item_of(alloc, turns, outwards),
        Meaning::Index(outwards) => index_of(alloc, turns, outwards),
    }
}

// The text as a value.
fn text_value(found: Result<Text, OutOfMemory>) -> Result<Value, Stop>
    ensures { (t : List ℕ) → IfOk found (λ x. x ≡ t) → IsFound json (Some (text t)) result }
{
    match found {
        Ok(text) => Ok(Value::Text(text)),
        Err(_) => Err(Stop::OutOfMemory),
    }
}

// The text of the id.
fn id_value(alloc: Global, id: Result<ResourceId, Stop>) -> Result<Value, Stop>
    ensures { Then (λ i. i) json (λ i. Some (text (text_of i))) id result }
{
    match id {
        Ok(id) => {
            let text = id.text(alloc);
            let_go(id);
            text_value(text)
        }
        Err(stop) => Err(stop),
    }
}

// A member of the state at the key of an id.
fn state_member<K: Surroundings>(
    alloc: Global,
    around: &K,
    name: &str,
    id: Result<ResourceId, Stop>,
) -> Result<Value, Stop>
    ensures { (r : Reads ResourceId) → Gives (K.sight around.now).cell (λ i. i) id (told (K.sight around.now).known r)
        → Gives (K.sight around.now).cell json result
        (told (K.sight around.now).known (state_member (chars name.now) r)) }
{
    match id {
        Ok(id) => {
            let member = looked(alloc, around.state(alloc, &id), name);
            let_go(id);
            member
        }
        Err(stop) => Err(stop),
    }
}

// A field of the resource or the module of a number.
fn field_in<K: Surroundings>(
    alloc: Global,
    around: &K,
    number: usize,
    field: &Field,
    turns: &[Turn],
) -> Result<Value, Stop>
    ensures { Answers (K.sight around.now) turns.now json result
        (field_value (K.sight around.now).here (K.sight around.now).around number field.now) }
{
    match field {
        Field::Id => id_value(alloc, around.id(alloc, number, turns)),
        Field::Name => around.name(alloc, number, turns),
        Field::Type => text_value(around.kind(alloc, number)),
        Field::ApiVersion => text_value(around.version(alloc, number)),
        Field::Properties => {
            let id = around.id(alloc, number, turns);
            state_member(alloc, around, "properties", id)
        }
        Field::Outputs => Err(Stop::NoValue),
        Field::Other(name) => {
            let id = around.id(alloc, number, turns);
            state_member(alloc, around, name.as_str(), id)
        }
    }
}

/// A field of the resource or the module of a number, with the loop around its declaration, where one of its elements
/// is used.
pub fn field_of<K: Surroundings>(
    alloc: Global,
    around: &K,
    number: usize,
    field: &Field,
    element: Option<Turn>,
) -> Result<Value, Stop>
    ensures { Answers (K.sight around.now) (option_to_list element) json result
        (field_value (K.sight around.now).here (K.sight around.now).around number field.now) }
{
    match element {
        Some(element) => {
            let turns = [element];
            let value = field_in(alloc, around, number, field, &turns);
            let_go(turns);
            value
        }
        None => field_in(alloc, around, number, field, &[]),
    }
}

// The name of the resource or the module of a number, with the loop around its declaration.
fn name_of<K: Surroundings>(
    alloc: Global,
    around: &K,
    number: usize,
    element: Option<Turn>,
) -> Result<Value, Stop>
    ensures { Answers (K.sight around.now) (option_to_list element) json result
        ((K.sight around.now).around.name number) }
{
    match element {
        Some(element) => {
            let turns = [element];
            let name = around.name(alloc, number, &turns);
            let_go(turns);
            name
        }
        None => around.name(alloc, number, &[]),
    }
}

/// The output of a number of a module, with the loop around its declaration, where one of its elements is used.
pub fn output_of<K: Surroundings>(
    alloc: Global,
    around: &K,
    target: Target,
    number: usize,
    element: Option<Turn>,
) -> Result<Value, Stop>
    ensures { Answers (K.sight around.now) (option_to_list element) json result
        (module_output (K.sight around.now) target number) }
{
    let name = name_of(alloc, around, target.number(), element);
    copied(alloc, around.output(alloc, target, number, name))
}
