//! What is beyond no limit can be built. A law has no body: its contract is the law.
ghost use Rattle.std.specs.Prelude.{◌↔◌};
ghost use Rattle.tree_building.specs.Templates.{TemplateTree, TemplateValue};
ghost use Rattle.tree_building.specs.Written.{IsWithin, ValueIsWithin};
ghost use Rattle.measured_trees.specs.Extremes.{tree_extremes, value_extremes};
ghost use Rattle.measured_trees.specs.Limits.{AreShort, AreFlat, IsPrintable};
ghost use Rattle.tree_building.specs.Each.{Each, EachOfValue, AreSmall, ValueIsSmall};

/// Exactly where its longest text of an expression is short enough and its deepest expression flat enough, each
/// expression of a tree is within the limits, which is what `tree` of `tree_building` requires.
pub fn small_trees()
    ensures { (e : TemplateTree) → AreSmall e ↔ (AreShort (tree_extremes e) × AreFlat (tree_extremes e)) }
{}

/// The same of the value of a member, a variable or an output, and of `written`.
pub fn small_values()
    ensures { (v : TemplateValue) → ValueIsSmall v ↔ (AreShort (value_extremes v) × AreFlat (value_extremes v)) }
{}

/// Exactly where each expression of a tree is printable and within the limits, a template can read it back, which is
/// what the laws of `emitted_trees` require.
pub fn trees_within_the_limits()
    ensures { (e : TemplateTree) → IsWithin e ↔ (Each IsPrintable e × AreSmall e) }
{}

/// The same of the value of a member, a variable or an output.
pub fn values_within_the_limits()
    ensures { (v : TemplateValue) → ValueIsWithin v ↔ (EachOfValue IsPrintable v × ValueIsSmall v) }
{}
