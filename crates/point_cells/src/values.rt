// The values of variables and outputs at a point, before their rules are asked.
ghost use Rattle.arm_value.specs.View.{json};
ghost use Rattle.plan_table.specs.declared.line.Spot.TheVariants as spot;
ghost use Rattle.plan_sight.specs.Seen.{Shows};
ghost use Rattle.point_sights.specs.Symbols.{IsComplete};
ghost use Rattle.plan_values.specs.Values.{IsSpot};
ghost use Rattle.point_rows.specs.Rows.{IsFit};
ghost use Rattle.point_cells.specs.RawNow.{raw_now};

use arm_value::Value;
use plan_sight::lack::Lack;
use plan_values::content::{output_source, source_of};
use plan_values::declared::{output_at, variable_at};
use point_rows::later::Later;
use point_sights::register::Register;
use point_sights::scopes::told_in_scope;
use point_sights::source::Source;
use std::alloc::Global;

/// The value of a variable.
pub fn variable_told(
    alloc: Global,
    register: &Register,
    later: &Later,
    frame: usize,
    number: usize,
) -> Result<Value, Lack>
    requires complete { IsComplete register.now }
    requires fit { IsFit register.now.table later.now }
    requires spot { IsSpot register.now.table (spot.Variable frame number) }
    ensures { Shows json register.now.table result (raw_now register.now.table later.now (spot.Variable frame number)) }
{
    let variable = variable_at(register, frame, number);
    told_in_scope(
        alloc,
        register,
        later,
        frame,
        &source_of(&variable.name, &variable.content),
    )
}

/// Whether the condition of an output is true: it is where it has none.
pub fn offered_told(
    alloc: Global,
    register: &Register,
    later: &Later,
    frame: usize,
    number: usize,
) -> Result<Value, Lack>
    requires complete { IsComplete register.now }
    requires fit { IsFit register.now.table later.now }
    requires spot { IsSpot register.now.table (spot.Offered frame number) }
    ensures { Shows json register.now.table result (raw_now register.now.table later.now (spot.Offered frame number)) }
{
    match &output_at(register, frame, number).condition {
        Some(tree) => told_in_scope(alloc, register, later, frame, &Source::Tree(tree)),
        None => Ok(Value::Bool(true)),
    }
}

/// The value of an output.
pub fn output_told(
    alloc: Global,
    register: &Register,
    later: &Later,
    frame: usize,
    number: usize,
) -> Result<Value, Lack>
    requires complete { IsComplete register.now }
    requires fit { IsFit register.now.table later.now }
    requires spot { IsSpot register.now.table (spot.Output frame number) }
    ensures { Shows json register.now.table result (raw_now register.now.table later.now (spot.Output frame number)) }
{
    let output = output_at(register, frame, number);
    told_in_scope(
        alloc,
        register,
        later,
        frame,
        &output_source(&output.content),
    )
}
