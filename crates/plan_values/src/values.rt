// The value of each cell, before its rule is asked.
ghost use Rattle.std.specs.Prelude.{◌≡◌, ◌<◌, length};
ghost use Rattle.arm_value.specs.View.{json};
ghost use Rattle.plan_table.specs.declared.line.Spot.TheVariants as spot;
ghost use Rattle.plan_table.specs.Lines.{line_at};
ghost use Rattle.plan_sight.specs.Seen.{Shows};
ghost use Rattle.plan_telling.specs.Symbols.{IsComplete};
ghost use Rattle.plan_values.specs.Values.{IsSpot, told_raw};

use crate::content::{output_source, source_of};
use crate::declared::{output_at, variable_at};
use crate::instances::{count_told, included_told};
use crate::names::name_told;
use crate::parameters::parameter_told;
use crate::scopes::told_in_scope;
use arm_value::Value;
use plan_deployments::listing::listing_told;
use plan_sight::lack::Lack;
use plan_table::frame::Instance;
use plan_table::line::Spot;
use plan_telling::register::Register;
use plan_telling::source::Source;
use std::alloc::Global;

// The value of a variable.
fn variable_told(
    alloc: Global,
    register: &Register,
    frame: usize,
    number: usize,
) -> Result<Value, Lack>
    requires complete { IsComplete register.now }
    requires spot { IsSpot register.now.table (spot.Variable frame number) }
    ensures { Shows json register.now.table result (told_raw register.now.table (spot.Variable frame number)) }
{
    let variable = variable_at(register, frame, number);
    told_in_scope(
        alloc,
        register,
        frame,
        &source_of(&variable.name, &variable.content),
    )
}

// Whether the condition of an output is true: it is where it has none.
fn offered_told(
    alloc: Global,
    register: &Register,
    frame: usize,
    number: usize,
) -> Result<Value, Lack>
    requires complete { IsComplete register.now }
    requires spot { IsSpot register.now.table (spot.Offered frame number) }
    ensures { Shows json register.now.table result (told_raw register.now.table (spot.Offered frame number)) }
{
    match &output_at(register, frame, number).condition {
        Some(tree) => told_in_scope(alloc, register, frame, &Source::Tree(tree)),
        None => Ok(Value::Bool(true)),
    }
}

// The value of an output.
fn output_told(
    alloc: Global,
    register: &Register,
    frame: usize,
    number: usize,
) -> Result<Value, Lack>
    requires complete { IsComplete register.now }
    requires spot { IsSpot register.now.table (spot.Output frame number) }
    ensures { Shows json register.now.table result (told_raw register.now.table (spot.Output frame number)) }
{
    let output = output_at(register, frame, number);
    told_in_scope(alloc, register, frame, &output_source(&output.content))
}

// The value that lists the nested deployments of a scope.
fn deployments_told(alloc: Global, register: &Register, frame: usize) -> Result<Value, Lack>
    requires complete { IsComplete register.now }
    requires spot { IsSpot register.now.table (spot.Deployments frame) }
    ensures { Shows json register.now.table result (told_raw register.now.table (spot.Deployments frame)) }
{
    listing_told(alloc, &register.table, frame)
}

/// What is told of the value of the cell of a line, before its rule is asked. Where the template has no value for it,
/// it is not there.
pub fn raw_value(alloc: Global, register: &Register, at: usize) -> Result<Value, Lack>
    requires complete { IsComplete register.now }
    requires listed { at < length register.now.table.lines.items }
    ensures { Shows json register.now.table result
        (told_raw register.now.table (line_at register.now.table.lines.items at).spot) }
{
    match register.table.lines[at].spot {
        Spot::Parameter(frame, number) => parameter_told(alloc, register, frame, number),
        Spot::Variable(frame, number) => variable_told(alloc, register, frame, number),
        Spot::Offered(frame, number) => offered_told(alloc, register, frame, number),
        Spot::Output(frame, number) => output_told(alloc, register, frame, number),
        Spot::Count(frame, resource) => count_told(alloc, register, frame, resource),
        Spot::Included(frame, resource, copy) => {
            included_told(alloc, register, frame, Instance { resource, copy })
        }
        Spot::Name(frame, resource, copy) => {
            name_told(alloc, register, frame, Instance { resource, copy })
        }
        Spot::Deployments(frame) => deployments_told(alloc, register, frame),
    }
}
