//! How deep values and lists of a template nest.
ghost use Rattle.std.specs.Prelude.{◌≡◌, max};
ghost use Rattle.arm_value.specs.Json.{nesting};
ghost use Rattle.arm_value.specs.View.{json};
ghost use Rattle.template_nestings.specs.Nestings as spec;

use crate::nests::Nests;
use arm_value::{Items, Value};
use template_parts::{Declaration, ResourceCopy};

/// Of an array or an object, by its deepest part.
pub(crate) fn up(deepest: u64) -> u64
    ensures { result ≡ spec.up deepest }
{
    deepest.saturating_add(1)
}

/// Of the deeper of two.
pub(crate) fn greater(a: u64, b: u64) -> u64
    ensures { result ≡ max a b }
{
    a.max(b)
}

/// Of a value.
pub(crate) fn value(value: &Value) -> u64
    ensures { result ≡ nesting (json value.now) }
{
    u64::from(value.nesting())
}

/// Of a value that may be there.
pub(crate) fn optional(option: &Option<Value>) -> u64
    ensures { result ≡ spec.value_or_none option.now }
{
    match option {
        Some(there) => value(there),
        None => 0,
    }
}

/// Of the values that a parameter may have.
pub(crate) fn allowed(option: &Option<Items>) -> u64
    ensures { result ≡ spec.allowed_nesting option.now }
{
    match option {
        Some(items) => up(u64::from(items.depth())),
        None => 0,
    }
}

/// Of the object of a loop.
pub(crate) fn looped(count: &Value, input: &Value) -> u64
    ensures { result ≡ spec.loop_nesting count.now input.now }
{
    up(greater(value(count), value(input)))
}

// Of the deepest part.
fn deepest<T: Nests>(parts: &[T]) -> u64
    ensures { result ≡ spec.deepest T.nesting_of parts.now }
{
    let mut most = 0;
    for part in parts {
        most = greater(most, part.nesting());
    }
    most
}

/// Of the object of these parts, which is left out where there is none.
pub(crate) fn listed<T: Nests>(parts: &[T]) -> u64
    ensures { result ≡ spec.listed T.nesting_of parts.now }
{
    if parts.is_empty() {
        0
    } else {
        up(deepest(parts))
    }
}

// Of an array, which is left out where it is empty.
fn items_or_none(items: &Items) -> u64
    ensures { result ≡ spec.items_or_none items.now }
{
    if items.len() == 0 {
        0
    } else {
        up(u64::from(items.depth()))
    }
}

// Of the loop of a resource.
fn copy(option: &Option<ResourceCopy>) -> u64
    ensures { result ≡ spec.copy_nesting option.now }
{
    match option {
        Some(copy) => up(value(&copy.count)),
        None => 0,
    }
}

/// Of what declares a resource.
pub(crate) fn declaration(declaration: &Declaration) -> u64
    ensures { result ≡ spec.declaration_nesting declaration.now }
{
    let last = greater(copy(&declaration.copy), optional(&declaration.metadata));
    let rest = greater(items_or_none(&declaration.depends_on), last);
    let conditional = greater(optional(&declaration.condition), rest);
    greater(value(&declaration.name), conditional)
}
