//! The two passes over a value, by whatever its declarations become: it is measured, and then made.
ghost use Rattle.std.specs.Prelude.{◌≤◌, option_map};
ghost use Rattle.bicep_resolved.specs.View.{source_of, value_of};
ghost use Rattle.emitted_expressions.specs.Sight.{frames_of};
ghost use Rattle.measured_trees.specs.Extremes.{tree_extremes, value_extremes};
ghost use Rattle.measured_trees.specs.Measures.{Takes};
ghost use Rattle.tree_building.specs.Built.{IsTree, IsValue};
ghost use Rattle.tree_building.specs.Depth.{depth, value_depth};
ghost use Rattle.tree_building.specs.Each.{AreSmall, ValueIsSmall};
ghost use Rattle.tree_building.specs.Sight as spec;

use arm_value::{OutOfMemory, Text, Value};
use bicep_resolved::{Source, SourceValue};
use emitted_expressions::{Declarations, Turn};
use measured_expressions::{Sizes, Span};
use measured_trees::{Measure, measured_tree, measured_written};
use std::alloc::Global;
use tree_building::{Written, tree, written};
use tree_texts::Expressions;

/// What a value becomes, which may be a loop.
pub(crate) fn made_value<K: Declarations>(
    alloc: Global,
    declarations: &K,
    name: Option<&Text>,
    value: &SourceValue,
    turns: &[Turn],
) -> Result<Written, OutOfMemory>
    requires within { ValueIsSmall (spec.value (K.sight declarations.now) (option_map (λ t. t.now) name)
        (value_of value.now) (frames_of turns.now)) }
    requires nests { value_depth (spec.value (K.sight declarations.now) (option_map (λ t. t.now) name)
        (value_of value.now) (frames_of turns.now)) ≤ 119 }
    ensures { IsValue (spec.value (K.sight declarations.now) (option_map (λ t. t.now) name.entry)
        (value_of value.now) (frames_of turns.now)) result }
{
    let expressions = Expressions { declarations };
    written(alloc, &expressions, name, value, turns)
}

/// How much of the limits it takes.
pub(crate) fn value_measure<K: Sizes>(
    alloc: Global,
    declarations: &K,
    name: Option<&Text>,
    value: &SourceValue,
    spans: &[Span],
) -> Result<Measure, OutOfMemory>
    ensures { Takes spans.now result (λ fs. value_extremes (spec.value (K.sight declarations.now)
        (option_map (λ t. t.now) name.entry) (value_of value.now) fs)) }
{
    let expressions = Expressions { declarations };
    measured_written(alloc, &expressions, name, value, spans)
}

/// What a value becomes that is no loop.
pub(crate) fn made_tree<K: Declarations>(
    alloc: Global,
    declarations: &K,
    e: &Source,
    turns: &[Turn],
) -> Result<Value, OutOfMemory>
    requires within { AreSmall (spec.tree (K.sight declarations.now) (source_of e.now) (frames_of turns.now)) }
    requires nests { depth (spec.tree (K.sight declarations.now) (source_of e.now) (frames_of turns.now)) ≤ 119 }
    ensures { IsTree (spec.tree (K.sight declarations.now) (source_of e.now) (frames_of turns.now)) result }
{
    let expressions = Expressions { declarations };
    tree(alloc, &expressions, e, turns)
}

/// How much of the limits it takes.
pub(crate) fn tree_measure<K: Sizes>(
    alloc: Global,
    declarations: &K,
    e: &Source,
    spans: &[Span],
) -> Result<Measure, OutOfMemory>
    ensures { Takes spans.now result
        (λ fs. tree_extremes (spec.tree (K.sight declarations.now) (source_of e.now) fs)) }
{
    let expressions = Expressions { declarations };
    measured_tree(alloc, &expressions, e, spans)
}
