//! What fields of resources and outputs of modules become.
ghost use Rattle.std.specs.Prelude.{Some};
ghost use Rattle.arm_expr.specs.Tree.{Tree};
ghost use Rattle.bicep_emission.specs.Emitted.{properties_of, state_member_of, output_of};
ghost use Rattle.emitted_parts.specs.Built.{Is, deployment_tree};

use crate::accesses::{plain_member, word_member};
use crate::calls::{call_one, call_three, call_two};
use crate::literals::{text, word};
use arm_expr::Expr;
use arm_value::{OutOfMemory, Text};
use std::alloc::Global;

/// The properties of the state at an id.
pub fn properties(
    alloc: Global,
    id: Result<Expr, OutOfMemory>,
    version: &Text,
) -> Result<Expr, OutOfMemory>
    ensures { (a : Tree) → Is a id → Is (properties_of a version.now) result }
{
    call_two(alloc, "reference", id, text(alloc, version))
}

/// A member of the state at an id.
pub fn state_member(
    alloc: Global,
    id: Result<Expr, OutOfMemory>,
    version: &Text,
    name: &Text,
) -> Result<Expr, OutOfMemory>
    ensures { (a : Tree) → Is a id → Is (state_member_of a version.now name.now) result }
{
    let whole = call_three(
        alloc,
        "reference",
        id,
        text(alloc, version),
        word(alloc, "Full"),
    );
    plain_member(alloc, whole, name)
}

// The nested deployment of a name.
fn deployment(alloc: Global, name: Result<Expr, OutOfMemory>) -> Result<Expr, OutOfMemory>
    ensures { (a : Tree) → Is a name → Is (deployment_tree a) result }
{
    let id = call_two(
        alloc,
        "resourceId",
        word(alloc, "Microsoft.Resources/deployments"),
        name,
    );
    call_one(alloc, "reference", id)
}

/// The output of a name of the module of a name.
pub fn module_output(
    alloc: Global,
    output: &Text,
    name: Result<Expr, OutOfMemory>,
) -> Result<Expr, OutOfMemory>
    ensures { (a : Tree) → Is a name → Is (output_of (Some output.now) a) result }
{
    let outputs = word_member(alloc, deployment(alloc, name), "outputs");
    word_member(alloc, plain_member(alloc, outputs, output), "value")
}
