// The names that loops give an object, beside its own.
ghost use Rattle.std.specs.Prelude.{◌≡◌, ◌++◌, ◌∷◌, [], ℕ, List, not, bytes_eq, map, IfOk, OnOk};
ghost use Rattle.std.specs.List.{list_any};
ghost use Rattle.arm_value.specs.View.{member};
ghost use Rattle.arm_eval.specs.Trees.{names_of};
ghost use Rattle.arm_eval.specs.Free.{AreNames, are_free};

use arm_value::{Field, OutOfMemory, Text};
use std::alloc::Global;
use std::collections::BTreeSet;

// Adds the name to the names, and answers whether it was not among them.
fn add_name<'a>(names: &mut BTreeSet<&'a str>, name: &'a Text) -> Result<bool, OutOfMemory>
    ensures is_new { (ns : List (List ℕ)) → AreNames names.old ns
        → IfOk result (λ is_new. is_new ≡ not (list_any (bytes_eq name.now) ns)) }
    ensures added { (ns : List (List ℕ)) → AreNames names.old ns
        → OnOk result (AreNames names.new (ns ++ name.now ∷ [])) }
{
    let is_new = names.insert(name.as_str())?;
    Ok(is_new)
}

// The names of the members.
fn names_in<'a>(alloc: Global, fields: &'a [Field]) -> Result<BTreeSet<&'a str>, OutOfMemory>
    ensures { IfOk result (λ names. AreNames names (names_of (map member fields.now))) }
{
    let mut names = BTreeSet::new(alloc);
    for field in fields {
        add_name(&mut names, &field.name)?;
    }
    Ok(names)
}

/// Whether none of the given names is one of the object's, and they differ.
///
/// It takes time in the order of n log n comparisons of names, for n names in both.
pub(crate) fn are_free<'a>(
    alloc: Global,
    fields: &'a [Field],
    given: &'a [Field],
) -> Result<bool, OutOfMemory>
    ensures { IfOk result (λ free. free ≡ are_free (names_of (map member fields.now))
        (names_of (map member given.now))) }
{
    let mut names = names_in(alloc, fields)?;
    for field in given {
        if !add_name(&mut names, &field.name)? {
            return Ok(false);
        }
    }
    Ok(true)
}
