// How many resources a template has.

ghost use Rattle.std.specs.Prelude.{◌≡◌, option_map};
ghost use Rattle.arm_value.specs.Json.{row, pairs};
ghost use Rattle.arm_value.specs.View.{json};
ghost use Rattle.template_faults.specs.Counts.{total, array_count, row_count, tree_count, children_count};
ghost use Rattle.template_faults.specs.Counts.{exists, pairs_count, symbols_count, form_count, resource_count};
ghost use Rattle.arm_value.specs.Kinds.{is_true};

use crate::header::form_in;
use crate::names::is_resources;
use arm_value::{Fields, Items, Value};
use template_parts::Form;

/// The sum of two counts, which stays at the largest number of 64 bits.
pub fn total(count: u64, more: u64) -> u64
    ensures { result ≡ total count more }
{
    count.saturating_add(more)
}

// The number of resources in an array, with their children.
#[cycle(count)]
fn array_count(value: &Value) -> u64
    ensures { result ≡ array_count (json value.now) }
{
    match value {
        Value::Array(items) => row_count(items),
        _ => 0,
    }
}

#[cycle(count)]
fn row_count(items: &Items) -> u64
    ensures { result ≡ row_count 0 (row items.now) }
{
    let mut count = 0;
    for item in items.as_slice() {
        count = total(count, tree_count(item));
    }
    count
}

// A resource and its children.
#[cycle(count)]
fn tree_count(value: &Value) -> u64
    ensures { result ≡ tree_count (json value.now) }
{
    match value {
        Value::Object(fields) => total(1, children_count(fields)),
        _ => 1,
    }
}

#[cycle(count)]
fn children_count(fields: &Fields) -> u64
    ensures { result ≡ children_count (pairs fields.now) }
{
    for field in fields.as_slice() {
        if is_resources(&field.name) {
            return array_count(&field.value);
        }
    }
    0
}

// Whether a value is true.
fn is_true(value: Option<&Value>) -> bool
    ensures { result ≡ is_true (option_map (λ v. json v.now) value.entry) }
{
    match value {
        Some(Value::Bool(truth)) => *truth,
        _ => false,
    }
}

// Whether a resource exists already.
#[tactic(auto, using(template_parts::proofs::WordLemmas::chars_existing))]
fn exists(value: &Value) -> bool
    ensures { result ≡ exists (json value.now) }
{
    is_true(value.look("existing"))
}

// The number of resources by symbolic names, but for those that exist already.
fn pairs_count(fields: &Fields) -> u64
    ensures { result ≡ pairs_count 0 (pairs fields.now) }
{
    let mut count = 0;
    for field in fields.as_slice() {
        if !exists(&field.value) {
            count = total(count, 1);
        }
    }
    count
}

fn symbols_count(value: &Value) -> u64
    ensures { result ≡ symbols_count (json value.now) }
{
    match value {
        Value::Object(fields) => pairs_count(fields),
        _ => 0,
    }
}

// The number of resources of a template of the form.
fn form_count(form: Form, resources: Option<&Value>) -> u64
    ensures { result ≡ form_count form (option_map (λ v. json v.now) resources.entry) }
{
    let Some(resources) = resources else {
        return 0;
    };
    match form {
        Form::One => array_count(resources),
        Form::Two => symbols_count(resources),
    }
}

/// The number of resources of a template: children are counted, those that exist already and those of nested templates
/// are not, and a resource with a loop counts once. It stays at the largest number of 64 bits.
pub fn resource_count(template: &Fields) -> u64
    ensures { result ≡ resource_count (pairs template.now) }
{
    form_count(form_in(template), template.look("resources"))
}
