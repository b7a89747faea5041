//! What holds of the grammar and of texts in brackets. The functions here have no body.

ghost use Rattle.std.specs.Prelude.{◌≡◌, ◌≤◌, ◌↔◌, ◌∷◌, ◌++◌, [], ℕ, List, Result, length, true};
ghost use Rattle.arm_expr.specs.declared.expr.Expr.{Expr};
ghost use Rattle.arm_expr.specs.declared.fault.ExprFault.{ExprFault};
ghost use Rattle.arm_expr.specs.Answers.{Reads, IsReadAs};
ghost use Rattle.arm_expr.specs.Brackets.{is_bracketed, meaning, an_expression, plain, escaped};
ghost use Rattle.arm_expr.specs.Tree.{Tree, nesting};
ghost use Rattle.arm_expr.specs.Grammar.{Spells};

/// No text spells two expressions.
pub fn spelled_once()
    ensures { (t : List ℕ) (e f : Tree) → Spells e t → Spells f t → e ≡ f }
{}

/// A text is in brackets exactly where it is a `[`, any text and a `]`.
pub fn brackets_are_at_both_ends()
    ensures { (t : List ℕ) → (is_bracketed t ≡ true)
        ↔ ((inner : List ℕ) × (t ≡ 91 ∷ (inner ++ 93 ∷ []))) }
{}

/// A text that spells an expression means an expression, and every answer of `read` to it within the
/// limits is that expression, unless memory runs out.
pub fn spelled_texts_are_expressions()
    ensures means { (t : List ℕ) (e : Tree) → Spells e t → meaning t ≡ an_expression }
    ensures read { (t : List ℕ) (e : Tree) (r : Result Expr ExprFault) → Spells e t
        → length t ≤ 24576 → nesting e ≤ 64 → Reads 24576 64 t r → IsReadAs e r }
{}

/// A plain text that is written by the rule means itself, whatever text it is.
pub fn escaped_texts_are_plain()
    ensures { (t : List ℕ) → meaning (escaped t) ≡ plain t }
{}
