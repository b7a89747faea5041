// Whether a value meets the rule of the cell that it is for.
ghost use Rattle.std.specs.Prelude.{◌≡◌, ◌<◌, IfOk, length, get_or, is_none, is_some, slice_get, Some};
ghost use Rattle.plan_cells.specs.Resources.{Listed, header_in};
ghost use Rattle.arm_value.specs.View.{json};
ghost use Rattle.plan_cells.specs.Trees.{count_of};
ghost use Rattle.plan_cells.specs.Titles.{key_at};
ghost use Rattle.plan_cells.specs.Rule.{breach, is_of, is_text, is_int, is_bool};
ghost use Rattle.plan_cells.specs.Meaning.{rule};
ghost use Rattle.plan_table.specs.Lines.{cell_of, line_at};
ghost use Rattle.plan_table.specs.Whole.{whole_of, scopes_of, IsLaid};
ghost use Rattle.plan_table.specs.Found.{scope_at};
ghost use Rattle.plan_cells.specs.Children.{NamesDiffer};
ghost use Rattle.arm_value.specs.Kinds.{is_array};
ghost use Rattle.arm_value.specs.Kinds.{is_object};

use arm_value::{OutOfMemory, Value};
use plan_cells::{first_breach, key_at};
use plan_table::line::Spot;
use plan_table::table::Table;
use std::alloc::Global;
use template_parts::{Output, Parameter, ValueType};

// Whether the value is a text.
fn is_text(value: &Value) -> bool
    ensures { result ≡ is_text (json value.now) }
{
    match value {
        Value::Text(_) => true,
        _ => false,
    }
}

// Whether the value is a number.
fn is_int(value: &Value) -> bool
    ensures { result ≡ is_int (json value.now) }
{
    match value {
        Value::Int(_) => true,
        _ => false,
    }
}

// Whether the value is true or false.
fn is_bool(value: &Value) -> bool
    ensures { result ≡ is_bool (json value.now) }
{
    match value {
        Value::Bool(_) => true,
        _ => false,
    }
}

// Whether the value is an object.
fn is_object(value: &Value) -> bool
    ensures { result ≡ is_object (json value.now) }
{
    match value {
        Value::Object(_) => true,
        _ => false,
    }
}

// Whether the value is an array.
fn is_array(value: &Value) -> bool
    ensures { result ≡ is_array (json value.now) }
{
    match value {
        Value::Array(_) => true,
        _ => false,
    }
}

/// Whether the value is of the type.
pub fn is_of(kind: ValueType, value: &Value) -> bool
    ensures { result ≡ is_of kind (json value.now) }
{
    match kind {
        ValueType::String => is_text(value),
        ValueType::SecureString => is_text(value),
        ValueType::Int => is_int(value),
        ValueType::Bool => is_bool(value),
        ValueType::Object => is_object(value),
        ValueType::SecureObject => is_object(value),
        ValueType::Array => is_array(value),
    }
}

// Whether the value is a count from 0 to 800.
fn is_count(value: &Value) -> bool
    ensures { result ≡ is_some (count_of (json value.now)) }
{
    match value {
        Value::Int(number) => 0 <= *number && *number <= 800,
        _ => false,
    }
}

// Whether the value is one that the parameter may have.
fn meets_parameter(parameter: &Parameter, value: &Value) -> bool
    ensures { result ≡ is_none (breach parameter.now (json value.now)) }
{
    first_breach(parameter, value).is_none()
}

// Whether the value is a text of which a key can be formed with the type of a resource.
fn is_name(
    alloc: Global,
    table: &Table,
    frame: usize,
    resource: usize,
    value: &Value,
) -> Result<bool, OutOfMemory>
    requires there { frame < length table.now.frames.items }
    requires resource { resource < length (scope_at table.now frame).resources }
    ensures { IfOk result (λ b. (x : Listed) → slice_get (scope_at table.now frame).resources resource ≡ Some x
        → b ≡ is_some (key_at table.now.place.now x.type (json value.now))) }
{
    let kind = &table.frames[frame].resources[resource].kind;
    let key = key_at(alloc, table.place, kind, value)?;
    Ok(key.is_some())
}

// The parameter of a scope at a place.
fn parameter_at<'t>(table: &'t Table, frame: usize, number: usize) -> &'t Parameter
    requires there { frame < length table.now.frames.items }
    requires number { number < length (header_in (scope_at table.now frame).template).parameters }
    ensures { result.now ≡ get_or (header_in (scope_at table.now frame).template).parameters number result.now }
{
    let parameters = table.frames[frame].template.parameters.as_slice();
    &parameters[number]
}

// The output of a scope at a place.
fn output_at<'t>(table: &'t Table, frame: usize, number: usize) -> &'t Output
    requires there { frame < length table.now.frames.items }
    requires number { number < length (header_in (scope_at table.now frame).template).outputs }
    ensures { result.now ≡ get_or (header_in (scope_at table.now frame).template).outputs number result.now }
{
    let outputs = table.frames[frame].template.outputs.as_slice();
    &outputs[number]
}

/// Whether the value meets the rule of the cell of a line.
pub fn meets_rule(
    alloc: Global,
    table: &Table,
    at: usize,
    value: &Value,
) -> Result<bool, OutOfMemory>
    requires laid { IsLaid table.now }
    requires names_differ { NamesDiffer (whole_of table.now).template }
    requires listed { at < length table.now.lines.items }
    ensures { IfOk result (λ b. b ≡ rule (whole_of table.now)
        (cell_of (scopes_of table.now) (line_at table.now.lines.items at).spot) (json value.now)) }
{
    match table.lines[at].spot {
        Spot::Parameter(frame, number) => {
            Ok(meets_parameter(parameter_at(table, frame, number), value))
        }
        Spot::Output(frame, number) => { Ok(is_of(output_at(table, frame, number).kind, value)) }
        Spot::Offered(_, _) => Ok(is_bool(value)),
        Spot::Included(_, _, _) => Ok(is_bool(value)),
        Spot::Count(_, _) => Ok(is_count(value)),
        Spot::Name(frame, resource, _) => is_name(alloc, table, frame, resource, value),
        Spot::Variable(_, _) => Ok(true),
        Spot::Deployments(_) => Ok(true),
    }
}
