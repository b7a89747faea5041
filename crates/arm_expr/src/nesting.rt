// How deep an expression nests.

ghost use Rattle.std.specs.Prelude.{◌≡◌, nat_le, map};
ghost use Rattle.arm_expr.specs.Tree.{nesting, deepest, trees};
ghost use Rattle.arm_expr.specs.View.{tree_of};

use crate::expr::Expr;

/// Whether an expression nests within the limit. It looks no deeper than that.
#[cycle(nests)]
#[tactic(auto, using(crate::proofs::ViewLemmas::views))]
pub fn is_within(e: &Expr, limit: u32) -> bool
    ensures { result ≡ nat_le (nesting (tree_of e.now)) limit }
{
    match e {
        Expr::Text(_) => true,
        Expr::Int(_) => true,
        Expr::Call(_, arguments) => limit > 0 && are_within(arguments, limit - 1),
        Expr::Member(inner, _) => limit > 0 && is_within(inner, limit - 1),
        Expr::Index(base, index) => {
            limit > 0 && is_within(base, limit - 1) && is_within(index, limit - 1)
        }
    }
}

/// Whether each of the expressions nests within the limit.
#[cycle(nests)]
#[tactic(auto, using(crate::proofs::ViewLemmas::views))]
pub fn are_within(es: &[Expr], limit: u32) -> bool
    ensures { result ≡ nat_le (deepest (trees (map tree_of es.now))) limit }
{
    for e in es {
        if !is_within(e, limit) {
            return false;
        }
    }
    true
}
