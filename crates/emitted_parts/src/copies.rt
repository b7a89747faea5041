//! Copies of expressions. The functions recurse as deep as the expression nests.
ghost use Rattle.std.specs.Prelude.{map};
ghost use Rattle.arm_expr.specs.Tree.{trees};
ghost use Rattle.arm_expr.specs.View.{tree_of};
ghost use Rattle.emitted_parts.specs.Built.{Is, Are};

use crate::accesses::{plain_member, plain_part};
use crate::calls::named;
use crate::lists::with;
use crate::literals::text;
use arm_expr::Expr;
use arm_value::OutOfMemory;
use std::alloc::Global;

/// The same expression again.
#[cycle(copying)]
#[tactic(auto, using(arm_expr::proofs::ViewLemmas::views))]
pub fn copied(alloc: Global, e: &Expr) -> Result<Expr, OutOfMemory>
    ensures { Is (tree_of e.now) result }
{
    match e {
        Expr::Text(characters) => text(alloc, characters),
        Expr::Int(number) => Ok(Expr::Int(*number)),
        Expr::Call(name, arguments) => {
            named(name.copy(alloc), all_copied(alloc, arguments.as_slice()))
        }
        Expr::Member(inner, name) => plain_member(alloc, copied(alloc, inner), name),
        Expr::Index(base, index) => { plain_part(alloc, copied(alloc, base), copied(alloc, index)) }
    }
}

#[cycle(copying)]
#[tactic(auto, using(arm_expr::proofs::ViewLemmas::views))]
fn all_copied(alloc: Global, items: &[Expr]) -> Result<Vec<Expr>, OutOfMemory>
    ensures { Are (trees (map tree_of items.now)) result }
{
    let mut all = Vec::new(alloc);
    for item in items {
        match with(Ok(all), copied(alloc, item)) {
            Ok(more) => all = more,
            Err(error) => return Err(error),
        }
    }
    Ok(all)
}
