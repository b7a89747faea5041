// Expressions that call `reference`.

ghost use Rattle.std.specs.Prelude.{◌≡◌, map};
ghost use Rattle.arm_expr.specs.Tree.{trees};
ghost use Rattle.arm_expr.specs.View.{tree_of};
ghost use Rattle.template_texts.specs.Sound.{is_reference, has_reference, have_reference};

use arm_expr::Expr;
use arm_value::Text;

// Whether the function is `reference`.
#[tactic(auto, using(crate::proofs::WordLemmas::words))]
fn is_reference(name: &Text) -> bool
    ensures { result ≡ is_reference name.now }
{
    name.equals_ignore_case("reference")
}

/// Whether a part of the expression calls `reference`.
#[cycle(reference)]
#[tactic(auto, using(arm_expr::proofs::ViewLemmas::views))]
pub fn has_reference(e: &Expr) -> bool
    ensures { result ≡ has_reference (tree_of e.now) }
{
    match e {
        Expr::Text(_) => false,
        Expr::Int(_) => false,
        Expr::Call(name, arguments) => is_reference(name) || have_reference(arguments),
        Expr::Member(inner, _) => has_reference(inner),
        Expr::Index(base, index) => has_reference(base) || has_reference(index),
    }
}

// Whether a part of one of the expressions does.
#[cycle(reference)]
#[tactic(auto, using(arm_expr::proofs::ViewLemmas::views))]
fn have_reference(es: &[Expr]) -> bool
    ensures { result ≡ have_reference (trees (map tree_of es.now)) }
{
    for e in es {
        if has_reference(e) {
            return true;
        }
    }
    false
}
