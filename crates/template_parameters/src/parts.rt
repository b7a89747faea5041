// Values put together from their parts.

ghost use Rattle.std.specs.Prelude.{◌≡◌, ◌≤◌, ◌++◌, ◌∷◌, [], Ok, None, IfOk};
ghost use Rattle.arm_value.specs.View.{json};
ghost use Rattle.arm_value.specs.Json.{nesting, IsInOrder};

use arm_value::{Fields, Items, OutOfMemory, Text, Value};
use std::alloc::Global;
use template_parts::run_out;

/// There is none; the part is dropped.
pub fn nothing<T: Drop, R: Drop>(_part: T) -> Result<Option<R>, OutOfMemory>
    ensures { result ≡ Ok None }
{
    Ok(None)
}

/// The items with one more at their end.
pub fn with_item(alloc: Global, mut items: Items, value: Value) -> Result<Items, OutOfMemory>
    requires { nesting (json value) ≤ 119 }
    ensures { IfOk result (λ js. js ≡ items ++ json value ∷ []) }
{
    match items.push(alloc, value) {
        Ok(()) => Ok(items),
        Err(_) => run_out(items),
    }
}

// The members with one more, whose name comes after all the others.
fn put_last(
    alloc: Global,
    mut members: Fields,
    name: Text,
    value: Value,
) -> Result<Fields, OutOfMemory>
    requires nests { nesting (json value) ≤ 119 }
    requires last { IsInOrder (members ++ (name, json value) ∷ []) }
    ensures { IfOk result (λ ms. ms ≡ members ++ (name, json value) ∷ []) }
{
    match members.push_last(alloc, name, value) {
        Ok(()) => Ok(members),
        Err(_) => run_out(members),
    }
}

/// The members with one more, whose name comes after all the others.
pub fn with_member(
    alloc: Global,
    members: Fields,
    name: &Text,
    value: Value,
) -> Result<Fields, OutOfMemory>
    requires nests { nesting (json value) ≤ 119 }
    requires last { IsInOrder (members ++ (name.now, json value) ∷ []) }
    ensures { IfOk result (λ ms. ms ≡ members ++ (name.now, json value) ∷ []) }
{
    match name.copy(alloc) {
        Ok(name) => put_last(alloc, members, name, value),
        Err(_) => run_out((members, value)),
    }
}
