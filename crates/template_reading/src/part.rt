// Parts that are each the member of an object, by their names.

ghost use Rattle.std.specs.Prelude.{◌≡◌, ◌++◌, ◌∷◌, [], map, option_map, IfOk};
ghost use Rattle.arm_value.specs.View.{json, member};
ghost use Rattle.template_meaning.specs.Parts.{is_copy, unlooped, copies_in};

use arm_value::{Field, ListOf, OutOfMemory, Text, Value};
use std::alloc::Global;
use template_parts::run_out;

/// A part that is a member of an object.
pub trait Part: Drop {
    ghost use Rattle.std.specs.Prelude.{◌≡◌, IfOk};
    ghost use Rattle.arm_value.specs.Json.{Member};
    ghost use Rattle.arm_value.specs.View.{member};

    /// The part that a member is.
    ghost part_of: { Member → Self };

    /// The part that the member is.
    fn read(alloc: Global, field: &Field) -> Result<Self, OutOfMemory>
        ensures { IfOk result (λ p. p ≡ part_of (member field.now)) };
}

/// The list with one more at its end.
pub fn with_part<T: Drop>(mut parts: ListOf<T>, part: T) -> Result<ListOf<T>, OutOfMemory>
    ensures { IfOk result (λ l. l ≡ parts ++ part ∷ []) }
{
    match parts.push(part) {
        Ok(()) => Ok(parts),
        Err(_) => run_out(parts),
    }
}

/// The parts that the members are.
pub fn parts_of<T: Part>(alloc: Global, fields: &[Field]) -> Result<ListOf<T>, OutOfMemory>
    ensures { IfOk result (λ l. l ≡ map T.part_of (map member fields.now)) }
{
    let mut parts = ListOf::new(alloc);
    for field in fields {
        match T::read(alloc, field) {
            Ok(part) => parts = with_part(parts, part)?,
            Err(_) => return run_out(parts),
        }
    }
    Ok(parts)
}

/// Whether a member of this name makes loops.
pub fn is_copy(name: &Text) -> bool
    ensures { result ≡ is_copy name.now }
{
    name.equals("copy")
}

/// The parts that the members are, but for the one that makes loops.
pub fn unlooped_parts_of<T: Part>(alloc: Global, fields: &[Field]) -> Result<ListOf<T>, OutOfMemory>
    ensures { IfOk result (λ l. l ≡ map T.part_of (unlooped (map member fields.now))) }
{
    let mut parts = ListOf::new(alloc);
    for field in fields {
        if !is_copy(&field.name) {
            match T::read(alloc, field) {
                Ok(part) => parts = with_part(parts, part)?,
                Err(_) => return run_out(parts),
            }
        }
    }
    Ok(parts)
}

/// The member that makes loops.
pub fn copies_in<'a>(fields: &'a [Field]) -> Option<&'a Value>
    ensures { option_map (λ v. json v.now) result ≡ copies_in (map member fields.now) }
{
    for field in fields {
        if is_copy(&field.name) {
            return Some(&field.value);
        }
    }
    None
}
