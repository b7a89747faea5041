//! How much of the limits values of a template take.
ghost use Rattle.std.specs.Prelude.{◌≡◌, max};
ghost use Rattle.arm_expr.specs.Tree.{Tree};
ghost use Rattle.bicep_tree.specs.declared.leaf.Literal.{Literal};
ghost use Rattle.emitted_sizes.specs.Extent.{IsOf as IsExtent};
ghost use Rattle.tree_building.specs.Templates.{TemplateTree};
ghost use Rattle.tree_building.specs.Templates as t;
ghost use Rattle.measured_trees.specs.Extremes.{Extremes, nothing as no_extremes, enclosed as enclosed_extremes};
ghost use Rattle.measured_trees.specs.Extremes.{joined, tree_extremes, value_extremes};
ghost use Rattle.measured_trees.specs.Measures.{IsOf, Begins};

use emitted_sizes::Extent;

/// How much of the limits some values of a template take. Each number stops at 2^64 - 1.
#[derive(Clone, Copy)]
pub struct Measure {
    /// The characters of their longest text of an expression, with its brackets. 0 where they have none.
    pub longest: u64,
    /// How deep their deepest expression nests.
    pub deepest: u64,
    /// How deep their arrays and objects nest.
    pub depth: u64,
}

fn greater(one: u64, other: u64) -> u64
    ensures { result ≡ max one other }
{
    if one < other { other } else { one }
}

impl Measure {
    /// Of no value.
    pub fn nothing() -> Measure
        ensures nothing { IsOf no_extremes result }
        ensures begins { (all : Extremes) → Begins result all all }
    {
        Measure {
            longest: 0,
            deepest: 0,
            depth: 0,
        }
    }

    /// Of these values and of others.
    pub fn with(self, others: Measure) -> Measure
        ensures both { (x y : Extremes) → IsOf x self → IsOf y others → IsOf (joined x y) result }
        ensures begins { (x rest all : Extremes) → IsOf x others → Begins self (joined x rest) all
            → Begins result rest all }
    {
        let longest = greater(self.longest, others.longest);
        let deepest = greater(self.deepest, others.deepest);
        let depth = greater(self.depth, others.depth);
        Measure {
            longest,
            deepest,
            depth,
        }
    }

    /// Of these values, where no other is left.
    pub fn ended(self) -> Measure
        ensures { (all : Extremes) → Begins self no_extremes all → IsOf all result }
    {
        self
    }

    /// Of the array or the object of these values.
    pub fn enclosed(self) -> Measure
        ensures { (x : Extremes) → IsOf x self → IsOf (enclosed_extremes x) result }
    {
        let depth = self.depth.saturating_add(1);
        Measure {
            longest: self.longest,
            deepest: self.deepest,
            depth,
        }
    }

    /// Of the loop of a count and of an input, which this is of.
    pub(crate) fn looped(self, count: Extent) -> Measure
        ensures { (c : Tree) (e : TemplateTree) → IsExtent c count → IsOf (tree_extremes e) self
            → IsOf (value_extremes (t.each c e)) result }
    {
        let times = of_expression(count);
        let longest = greater(times.longest, self.longest);
        let deepest = greater(times.deepest, self.deepest);
        let depth = self.depth.saturating_add(2);
        Measure {
            longest,
            deepest,
            depth,
        }
    }
}

/// Of a literal.
pub(crate) fn of_literal() -> Measure
    ensures { (v : Literal) → IsOf (tree_extremes (t.literal v)) result }
{
    Measure::nothing()
}

/// Of an expression.
pub fn of_expression(extent: Extent) -> Measure
    ensures { (e : Tree) → IsExtent e extent → IsOf (tree_extremes (t.expression e)) result }
{
    let longest = extent.length.saturating_add(2);
    Measure {
        longest,
        deepest: extent.depth,
        depth: 0,
    }
}
