// Lists of parts as the members of objects.

ghost use Rattle.std.specs.Prelude.{◌≡◌, ◌≤◌, ◌++◌, ◌∷◌, [], map, IfOk};
ghost use Rattle.arm_value.specs.Json.{nesting, members_nesting, IsInOrder};
ghost use Rattle.arm_value.specs.View.{json};

use arm_value::{Fields, Items, ListOf, OutOfMemory, Text, Value};
use std::alloc::Global;
use template_parts::run_out;

/// A part that is written as a member of an object.
pub trait Written: Drop {
    ghost use Rattle.std.specs.Prelude.{◌≡◌, ◌≤◌, IfOk};
    ghost use Rattle.arm_value.specs.Json.{Member, nesting};
    ghost use Rattle.arm_value.specs.View.{json};

    /// The member that the part is.
    ghost member_of: { Self → Member };

    /// The name of the member.
    fn name(&self) -> &Text
        ensures { result.now ≡ (member_of self.now).0 };

    /// The value of the member.
    fn write(&self, alloc: Global) -> Result<Value, OutOfMemory>
        requires nests { nesting (member_of self.now).1 ≤ 119 }
        ensures { IfOk result (λ v. json v ≡ (member_of self.now).1) };
}

/// The items with one more at their end.
pub fn with_item(alloc: Global, mut items: Items, value: Value) -> Result<Items, OutOfMemory>
    requires { nesting (json value) ≤ 119 }
    ensures { IfOk result (λ js. js ≡ items ++ json value ∷ []) }
{
    match items.push(alloc, value) {
        Ok(()) => Ok(items),
        Err(_) => run_out(items),
    }
}

// The members with one more, whose name comes after all the others.
fn put_last(
    alloc: Global,
    mut members: Fields,
    name: Text,
    value: Value,
) -> Result<Fields, OutOfMemory>
    requires nests { nesting (json value) ≤ 119 }
    requires last { IsInOrder (members ++ (name, json value) ∷ []) }
    ensures { IfOk result (λ ms. ms ≡ members ++ (name, json value) ∷ []) }
{
    match members.push_last(alloc, name, value) {
        Ok(()) => Ok(members),
        Err(_) => run_out(members),
    }
}

/// The members with one more, whose name comes after all the others.
pub fn with_member(
    alloc: Global,
    members: Fields,
    name: &Text,
    value: Value,
) -> Result<Fields, OutOfMemory>
    requires nests { nesting (json value) ≤ 119 }
    requires last { IsInOrder (members ++ (name.now, json value) ∷ []) }
    ensures { IfOk result (λ ms. ms ≡ members ++ (name.now, json value) ∷ []) }
{
    match name.copy(alloc) {
        Ok(name) => put_last(alloc, members, name, value),
        Err(_) => run_out((members, value)),
    }
}

/// The members that the parts are.
pub fn write_all<T: Written>(alloc: Global, parts: &ListOf<T>) -> Result<Fields, OutOfMemory>
    requires order { IsInOrder (map T.member_of parts.now) }
    requires nests { members_nesting (map T.member_of parts.now) ≤ 119 }
    ensures { IfOk result (λ ms. ms ≡ map T.member_of parts.now) }
{
    let mut members = Fields::new();
    for part in parts.as_slice() {
        match part.write(alloc) {
            Ok(value) => members = with_member(alloc, members, part.name(), value)?,
            Err(_) => return run_out(members),
        }
    }
    Ok(members)
}
