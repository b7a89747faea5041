// Which number of a template is beyond its limit.

ghost use Rattle.std.specs.Prelude.{◌≡◌, option_map};
ghost use Rattle.arm_value.specs.Json.{pairs, row};
ghost use Rattle.arm_value.specs.View.{json};
ghost use Rattle.template_faults.specs.Counts.{pairs_length, member_count, plain_count, loop_count};
ghost use Rattle.template_faults.specs.Counts.{variable_count, beyond, variables_beyond, later_count_fault};
ghost use Rattle.template_faults.specs.Counts.{count_fault};
ghost use Rattle.arm_value.specs.Kinds.{row_length};

use crate::count::{resource_count, total};
use crate::sight::copies_in;
use arm_value::{Fields, Items, Value};
use template_parts::{TemplateFault, Which};
use template_values::is_copy;

// The number of members.
fn pairs_length(fields: &Fields) -> u64
    ensures { result ≡ pairs_length (pairs fields.now) }
{
    fields.len() as u64
}

// The number of items.
fn row_length(items: &Items) -> u64
    ensures { result ≡ row_length (row items.now) }
{
    items.len() as u64
}

// The number of members, where there are any.
fn member_count(value: Option<&Value>) -> u64
    ensures { result ≡ member_count (option_map (λ v. json v.now) value.entry) }
{
    match value {
        Some(Value::Object(fields)) => pairs_length(fields),
        _ => 0,
    }
}

// The number of members that are not `copy`.
fn plain_count(fields: &Fields) -> u64
    ensures { result ≡ plain_count 0 (pairs fields.now) }
{
    let mut count = 0;
    for field in fields.as_slice() {
        if !is_copy(&field.name) {
            count = total(count, 1);
        }
    }
    count
}

// The number of loops.
fn loop_count(value: Option<&Value>) -> u64
    ensures { result ≡ loop_count (option_map (λ v. json v.now) value.entry) }
{
    match value {
        Some(Value::Array(items)) => row_length(items),
        _ => 0,
    }
}

// The number of variables, with those that loops give.
fn variable_count(value: Option<&Value>) -> u64
    ensures { result ≡ variable_count (option_map (λ v. json v.now) value.entry) }
{
    match value {
        Some(Value::Object(fields)) => { total(plain_count(fields), loop_count(copies_in(fields))) }
        _ => 0,
    }
}

// A fault where there are more than so many.
fn beyond(which: Which, most: u64, count: u64) -> Option<TemplateFault>
    ensures { result ≡ beyond which most count }
{
    if count > most {
        Some(TemplateFault::Limit(which, count))
    } else {
        None
    }
}

// A fault where there are too many variables.
fn variables_beyond(template: &Fields) -> Option<TemplateFault>
    ensures { result ≡ variables_beyond (pairs template.now) }
{
    beyond(
        Which::Variables,
        512,
        variable_count(template.look("variables")),
    )
}

// The first number of resources and variables that is beyond its limit.
fn later_count_fault(template: &Fields) -> Option<TemplateFault>
    ensures { result ≡ later_count_fault (pairs template.now) }
{
    match beyond(Which::Resources, 800, resource_count(template)) {
        Some(fault) => Some(fault),
        None => variables_beyond(template),
    }
}

/// The first number of a template that is beyond its limit: its outputs, parameters, resources and variables.
#[tactic(auto, using(crate::proofs::WordLemmas::chars_outputs, template_parts::proofs::WordLemmas::chars_parameters))]
pub fn count_fault(template: &Fields) -> Option<TemplateFault>
    ensures { result ≡ count_fault (pairs template.now) }
{
    if let Some(fault) = beyond(Which::Outputs, 64, member_count(template.look("outputs"))) {
        return Some(fault);
    }
    match beyond(
        Which::Parameters,
        256,
        member_count(template.look("parameters")),
    ) {
        Some(fault) => Some(fault),
        None => later_count_fault(template),
    }
}
