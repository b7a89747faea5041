//! What holds of the values of expressions and of trees.

ghost use Rattle.std.specs.Prelude.{◌≡◌, ◌≤◌, ◌↔◌, ℕ, List, [], length, Option, Some};
ghost use Rattle.arm_value.specs.Json as values;
ghost use Rattle.arm_value.specs.Json.{Json, IsOrderly};
ghost use Rattle.arm_expr.specs.Tree.{Tree, nesting};
ghost use Rattle.arm_expr.specs.Grammar.{Spells};
ghost use Rattle.reading.specs.Reading.{pure};
ghost use Rattle.reading.specs.World.{value_in, reads_in, Agree};
ghost use Rattle.reading.specs.Knowledge.{Known, told, Grows, IsToldStill};
ghost use Rattle.arm_env.specs.Look.{Look, Fact, Surroundings};
ghost use Rattle.expression_values.specs.Meaning.{value};
ghost use Rattle.arm_eval.specs.Text.{expression_of};
ghost use Rattle.arm_eval.specs.Trees.{tree_value};
ghost use Rattle.arm_eval.specs.Plain.{IsPlain};

use foundation::limits::{MAX_EXPRESSION_CHARACTERS, MAX_EXPRESSION_NESTING, MAX_VALUE_NESTING};

/// A value, or that there is none, stays as more becomes known, and what looks first at an entry
/// that is not known yet has no value while that is so.
pub fn values_stay()
    ensures { (here : Surroundings) (e : Tree) (p q : Look → Known Fact) → Grows p q
        → IsToldStill q (value here e) (told p (value here e)) }
{}

/// Where worlds have the same for all that an expression looks at, it has one value in them, and
/// looks at the same.
pub fn worlds_that_agree()
    ensures { (here : Surroundings) (e : Tree) (w v : Look → Option Fact)
        → Agree w v (reads_in w (value here e))
        → (value_in v (value here e) ≡ value_in w (value here e))
        × (reads_in v (value here e) ≡ reads_in w (value here e)) }
{}

/// The value of a tree, or that there is none, stays as more becomes known, and what looks first at
/// an entry that is not known yet has no value while that is so.
pub fn values_of_trees_stay()
    ensures { (here : Surroundings) (j : Json) (p q : Look → Known Fact) → Grows p q
        → IsToldStill q (tree_value j here) (told p (tree_value j here)) }
{}

/// Where worlds have the same for all that a tree looks at, it has one value in them, and looks at
/// the same.
pub fn worlds_that_agree_on_trees()
    ensures { (here : Surroundings) (j : Json) (w v : Look → Option Fact)
        → Agree w v (reads_in w (tree_value j here))
        → (value_in v (tree_value j here) ≡ value_in w (tree_value j here))
        × (reads_in v (tree_value j here) ≡ reads_in w (tree_value j here)) }
{}

/// The expression of a text is the one that it spells, where the text has at most 24,576 characters
/// and the expression nests at most 64 deep; any other text has none.
pub fn expressions_are_spelled()
    ensures { (t : List ℕ) (e : Tree) → (expression_of t ≡ Some e)
        ↔ (Spells e t × ((length t ≤ MAX_EXPRESSION_CHARACTERS)
        × (nesting e ≤ MAX_EXPRESSION_NESTING))) }
{}

/// A tree without texts in brackets and without members named `copy`, which nests at most 100 deep,
/// has itself as its value in each environment, and reads nothing.
pub fn plain_trees_are_values()
    ensures itself { (here : Surroundings) (j : Json) → IsPlain j → IsOrderly j
        → values.nesting j ≤ MAX_VALUE_NESTING → tree_value j here ≡ pure j }
    ensures in_a_world { (here : Surroundings) (j : Json) → IsPlain j → IsOrderly j
        → values.nesting j ≤ MAX_VALUE_NESTING → (w : Look → Option Fact)
        → (value_in w (tree_value j here) ≡ Some j) × (reads_in w (tree_value j here) ≡ []) }
{}
