//! What fields of resources and outputs of modules become.
ghost use Rattle.std.specs.Prelude.{◌≡◌, ℕ, List, Some, length};
ghost use Rattle.arm_expr.specs.Tree.{Tree, text};
ghost use Rattle.emitted_parts.specs.Emitted.{properties_of, state_member_of, output_of};
ghost use Rattle.emitted_parts.specs.Built.{deployment_tree};
ghost use Rattle.emitted_sizes.specs.Extent.{IsOf};

use crate::accesses::plain_member;
use crate::calls::{call_one, call_three, call_two};
use crate::extent::Extent;
use crate::literals::word;

/// The properties of the state at an id, with the extents of the id and of the version.
pub fn properties(id: Extent, version: Extent) -> Extent
    ensures { (a : Tree) (v : List ℕ) → IsOf a id → IsOf (text v) version → IsOf (properties_of a v) result }
{
    call_two(9, id, version)
}

/// A member of the state at an id, with the extents of the id and of the version; its name has so many characters.
pub fn state_member(id: Extent, version: Extent, characters: u64) -> Extent
    ensures { (a : Tree) (v name : List ℕ) → length name ≡ characters → IsOf a id → IsOf (text v) version
        → IsOf (state_member_of a v name) result }
{
    plain_member(call_three(9, id, version, word("Full")), characters)
}

// The nested deployment of a name.
fn deployment(name: Extent) -> Extent
    ensures { (a : Tree) → IsOf a name → IsOf (deployment_tree a) result }
{
    call_one(
        9,
        call_two(10, word("Microsoft.Resources/deployments"), name),
    )
}

/// The output of the module of a name; the name of the output has so many characters.
pub fn module_output(characters: u64, name: Extent) -> Extent
    ensures { (a : Tree) (output : List ℕ) → length output ≡ characters → IsOf a name
        → IsOf (output_of (Some output) a) result }
{
    let outputs = plain_member(deployment(name), 7);
    plain_member(plain_member(outputs, characters), 5)
}
