// Parameters, outputs and arguments as members of objects.

ghost use Rattle.std.specs.Prelude.{◌≡◌, ◌≤◌, ◌∷◌, [], map, Some, option_map, codes, IfOk};
ghost use Rattle.arm_value.specs.Json.{int, array, row};
ghost use Rattle.arm_value.specs.View.{json};
ghost use Rattle.plain_values.specs.Plain.{written_plainly};
ghost use Rattle.template_written.specs.Slots.{put_slots, put_slot, NestsWithin, SlotsNest};
ghost use Rattle.template_written.specs.Parts.{type_word, parameter_slots, loop_slots, named_loop, value_slot};
ghost use Rattle.template_written.specs.Parts.{output_loop, output_slots, argument_loop, loop_argument, value_loop};

use crate::lists::{Written, with_item};
use crate::slots::{put_copy, put_number, put_optional, put_value, put_word};
use arm_value::{Fields, Items, OutOfMemory, Text, Value};
use plain_values::items_written_plainly;
use std::alloc::Global;
use template_parts::{Argument, Bounds, Content, Output, Parameter, ValueType, run_out};

// The word for the type.
fn type_word(kind: ValueType) -> &'static str
    ensures { result.now ≡ type_word kind }
{
    match kind {
        ValueType::String => "string",
        ValueType::SecureString => "securestring",
        ValueType::Int => "int",
        ValueType::Bool => "bool",
        ValueType::Object => "object",
        ValueType::SecureObject => "secureObject",
        ValueType::Array => "array",
    }
}

// The members with the allowed values, where there are any.
#[tactic(auto, unfolding(template_written::specs::Slots::put_slot))]
fn put_allowed(alloc: Global, fields: Fields, values: &Option<Items>) -> Result<Fields, OutOfMemory>
    requires { NestsWithin 119 (option_map (λ js. array (row (map written_plainly js))) values.now) }
    ensures { IfOk result (λ ms. ms ≡ put_slot (codes "allowedValues")
        (option_map (λ js. array (row (map written_plainly js))) values.now) fields) }
{
    match values {
        Some(values) => match items_written_plainly(alloc, values) {
            Ok(items) => put_value(alloc, fields, "allowedValues", Value::Array(items)),
            Err(_) => run_out(fields),
        },
        None => Ok(fields),
    }
}

// The members with the bounds of a parameter.
fn put_bounds(alloc: Global, fields: Fields, bounds: &Bounds) -> Result<Fields, OutOfMemory>
    ensures { IfOk result (λ ms. ms ≡ put_slots (
        (codes "minValue", option_map int bounds.now.min_value)
        ∷ (codes "maxValue", option_map int bounds.now.max_value)
        ∷ (codes "minLength", option_map int bounds.now.min_length)
        ∷ (codes "maxLength", option_map int bounds.now.max_length)
        ∷ []) fields) }
{
    let fields = put_number(alloc, fields, "minValue", bounds.min_value)?;
    let fields = put_number(alloc, fields, "maxValue", bounds.max_value)?;
    let fields = put_number(alloc, fields, "minLength", bounds.min_length)?;
    put_number(alloc, fields, "maxLength", bounds.max_length)
}

// The members of a parameter.
fn parameter_members(alloc: Global, parameter: &Parameter) -> Result<Fields, OutOfMemory>
    requires { SlotsNest 119 (parameter_slots parameter.now) }
    ensures { IfOk result (λ ms. ms ≡ put_slots (parameter_slots parameter.now) []) }
{
    let fields = put_word(alloc, Fields::new(), "type", type_word(parameter.kind))?;
    let fields = put_optional(alloc, fields, "defaultValue", &parameter.default_value)?;
    let fields = put_allowed(alloc, fields, &parameter.allowed_values)?;
    let fields = put_bounds(alloc, fields, &parameter.bounds)?;
    put_optional(alloc, fields, "metadata", &parameter.metadata)
}

impl Written for Parameter {
    ghost use Rattle.template_written.specs.Parts.{written_parameter};

    ghost member_of = { written_parameter };

    fn name(&self) -> &Text {
        &self.name
    }

    fn write(&self, alloc: Global) -> Result<Value, OutOfMemory> {
        Ok(Value::Object(parameter_members(alloc, self)?))
    }
}

/// The members of a loop, after others.
pub fn put_loop(
    alloc: Global,
    fields: Fields,
    count: &Value,
    input: &Value,
) -> Result<Fields, OutOfMemory>
    requires { SlotsNest 119 (loop_slots (json count.now) (json input.now)) }
    ensures { IfOk result (λ ms. ms ≡ put_slots (loop_slots (json count.now) (json input.now)) fields) }
{
    let fields = put_copy(alloc, fields, "count", count)?;
    put_copy(alloc, fields, "input", input)
}

/// The loop that gives a member of this name.
pub fn named_loop(
    alloc: Global,
    name: Text,
    count: &Value,
    input: &Value,
) -> Result<Value, OutOfMemory>
    requires { SlotsNest 119 (loop_slots (json count.now) (json input.now)) }
    ensures { IfOk result (λ v. json v ≡ named_loop name (json count.now) (json input.now)) }
{
    let fields = put_value(alloc, Fields::new(), "name", Value::Text(name))?;
    Ok(Value::Object(put_loop(alloc, fields, count, input)?))
}

// The members with the value, unless a loop gives it.
#[tactic(auto, unfolding(template_written::specs::Slots::put_slot))]
fn put_content(alloc: Global, fields: Fields, content: &Content) -> Result<Fields, OutOfMemory>
    requires { NestsWithin 119 (value_slot content.now) }
    ensures { IfOk result (λ ms. ms ≡ put_slot (codes "value") (value_slot content.now) fields) }
{
    match content {
        Content::Value(value) => put_copy(alloc, fields, "value", value),
        Content::Copy(_, _) => Ok(fields),
    }
}

// The members with the loop of an output, where there is one.
#[tactic(auto, unfolding(template_written::specs::Slots::put_slot))]
fn put_output_loop(alloc: Global, fields: Fields, content: &Content) -> Result<Fields, OutOfMemory>
    requires { NestsWithin 119 (output_loop content.now) }
    ensures { IfOk result (λ ms. ms ≡ put_slot (codes "copy") (output_loop content.now) fields) }
{
    match content {
        Content::Value(_) => Ok(fields),
        Content::Copy(count, input) => match put_loop(alloc, Fields::new(), count, input) {
            Ok(members) => put_value(alloc, fields, "copy", Value::Object(members)),
            Err(_) => run_out(fields),
        },
    }
}

// The members of an output.
fn output_members(alloc: Global, output: &Output) -> Result<Fields, OutOfMemory>
    requires { SlotsNest 119 (output_slots output.now) }
    ensures { IfOk result (λ ms. ms ≡ put_slots (output_slots output.now) []) }
{
    let fields = put_word(alloc, Fields::new(), "type", type_word(output.kind))?;
    let fields = put_content(alloc, fields, &output.content)?;
    let fields = put_output_loop(alloc, fields, &output.content)?;
    let fields = put_optional(alloc, fields, "condition", &output.condition)?;
    put_optional(alloc, fields, "metadata", &output.metadata)
}

impl Written for Output {
    ghost use Rattle.template_written.specs.Parts.{written_output};

    ghost member_of = { written_output };

    fn name(&self) -> &Text {
        &self.name
    }

    fn write(&self, alloc: Global) -> Result<Value, OutOfMemory> {
        Ok(Value::Object(output_members(alloc, self)?))
    }
}

// The loop that gives the value of an argument, as the one item of an array.
fn value_loops(alloc: Global, count: &Value, input: &Value) -> Result<Items, OutOfMemory>
    requires { NestsWithin 119 (loop_argument (json count.now) (json input.now)) }
    ensures { IfOk result (λ js. js ≡ value_loop (json count.now) (json input.now) ∷ []) }
{
    let name = Text::of(alloc, "value")?;
    let made = named_loop(alloc, name, count, input)?;
    with_item(alloc, Items::new(), made)
}

// The members with the loop of an argument, where there is one.
#[tactic(auto, unfolding(template_written::specs::Slots::put_slot))]
fn put_argument_loop(
    alloc: Global,
    fields: Fields,
    content: &Content,
) -> Result<Fields, OutOfMemory>
    requires { NestsWithin 119 (argument_loop content.now) }
    ensures { IfOk result (λ ms. ms ≡ put_slot (codes "copy") (argument_loop content.now) fields) }
{
    match content {
        Content::Value(_) => Ok(fields),
        Content::Copy(count, input) => match value_loops(alloc, count, input) {
            Ok(loops) => put_value(alloc, fields, "copy", Value::Array(loops)),
            Err(_) => run_out(fields),
        },
    }
}

impl Written for Argument {
    ghost use Rattle.template_written.specs.Parts.{written_argument};

    ghost member_of = { written_argument };

    fn name(&self) -> &Text {
        &self.name
    }

    fn write(&self, alloc: Global) -> Result<Value, OutOfMemory> {
        let fields = put_content(alloc, Fields::new(), &self.content)?;
        Ok(Value::Object(put_argument_loop(alloc, fields, &self.content)?))
    }
}
