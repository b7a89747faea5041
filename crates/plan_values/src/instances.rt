// The count of a resource, and whether an instance is included.
ghost use Rattle.std.specs.Prelude.{◌≡◌, ◌<◌, length};
ghost use Rattle.arm_value.specs.View.{json};
ghost use Rattle.plan_table.specs.declared.line.Spot.TheVariants.{Count, Included};
ghost use Rattle.plan_sight.specs.Seen.{Shows};
ghost use Rattle.plan_telling.specs.Symbols.{IsComplete};
ghost use Rattle.plan_values.specs.Values.{IsSpot, told_raw};

use crate::declared::listed_at;
use crate::scopes::{early_texts_at, told_in_instance, told_of_count};
use arm_value::Value;
use plan_sight::lack::Lack;
use plan_table::frame::Instance;
use plan_telling::register::Register;
use plan_telling::source::Source;
use std::alloc::Global;

/// How many instances a resource has: 1 where it has no loop.
pub fn count_told(
    alloc: Global,
    register: &Register,
    frame: usize,
    resource: usize,
) -> Result<Value, Lack>
    requires complete { IsComplete register.now }
    requires spot { IsSpot register.now.table (Count frame resource) }
    ensures { Shows json register.now.table result (told_raw register.now.table (Count frame resource)) }
{
    match &listed_at(register, frame, resource).declaration.copy {
        Some(looping) => told_of_count(alloc, register, frame, &Source::Tree(&looping.count)),
        None => Ok(Value::Int(1)),
    }
}

/// Whether an instance is included: it is where it has no condition.
pub fn included_told(
    alloc: Global,
    register: &Register,
    frame: usize,
    instance: Instance,
) -> Result<Value, Lack>
    requires complete { IsComplete register.now }
    requires spot { IsSpot register.now.table (Included frame instance.resource instance.copy) }
    ensures { Shows json register.now.table result
        (told_raw register.now.table (Included frame instance.resource instance.copy)) }
{
    match &listed_at(register, frame, instance.resource)
        .declaration
        .condition
    {
        Some(tree) => {
            let texts = early_texts_at(register, frame);
            told_in_instance(alloc, register, frame, instance, texts, &Source::Tree(tree))
        }
        None => Ok(Value::Bool(true)),
    }
}
