//! Runs of loops where entries of a table are used.
ghost use Rattle.std.specs.Prelude.{[], List, map, option_to_list};
ghost use Rattle.arm_expr.specs.Tree.{Tree};
ghost use Rattle.emitted_expressions.specs.Emitted.{Frame};
ghost use Rattle.ordered_emissions.specs.Holes.{fill, nearest};
ghost use Rattle.kept_parts.specs.Declared.{id_of_parts};
ghost use Rattle.emitted_expressions.specs.Sight.{frames_of};
ghost use Rattle.emitted_expressions.specs.Built.{Is};
ghost use Rattle.measured_expressions.specs.Spans.{IsSpan, AreSpans};
ghost use Rattle.kept_parts.specs.Kept.{IsKeptHoles, AreKeptHoles};

use arm_expr::Expr;
use arm_value::{OutOfMemory, Text};
use emitted_expressions::{Turn, letting_go, no_value};
use emitted_sizes::literals as literal_sizes;
use kept_parts::{KeptHoles, id_of_parts};
use measured_expressions::Span;
use std::alloc::Global;

// The expression with an item and an index without values in its holes.
fn filled_without(alloc: Global, kept: &KeptHoles) -> Result<Expr, OutOfMemory>
    ensures { (t : Tree) → IsKeptHoles t kept.now → Is (fill (nearest []) t) result }
{
    match no_value(alloc) {
        Ok(nothing) => {
            let made = kept.filled(alloc, Some(&nothing), Some(&nothing));
            letting_go(made, nothing)
        }
        Err(error) => Err(error),
    }
}

/// The expression with the nearest run in its holes, or expressions without a value where there is no run.
pub(crate) fn filled_in(
    alloc: Global,
    kept: &KeptHoles,
    turns: &[Turn],
) -> Result<Expr, OutOfMemory>
    ensures { (t : Tree) → IsKeptHoles t kept.now → Is (fill (nearest (frames_of turns.now)) t) result }
{
    match turns.get(0) {
        Some(turn) => kept.filled(alloc, Some(&turn.item), Some(&turn.index)),
        None => filled_without(alloc, kept),
    }
}

// The id with an item and an index without values in the holes of its parts.
fn id_without(alloc: Global, kind: &Text, parts: &[KeptHoles]) -> Result<Expr, OutOfMemory>
    ensures { (ts : List Tree) → AreKeptHoles ts parts.now
        → Is (id_of_parts kind.now (map (fill (nearest [])) ts)) result }
{
    match no_value(alloc) {
        Ok(nothing) => {
            let made = id_of_parts(alloc, kind, parts, Some(&nothing), Some(&nothing));
            letting_go(made, nothing)
        }
        Err(error) => Err(error),
    }
}

/// The id of a type and parts with the nearest run in the holes of these.
pub(crate) fn id_in(
    alloc: Global,
    kind: &Text,
    parts: &[KeptHoles],
    turns: &[Turn],
) -> Result<Expr, OutOfMemory>
    ensures { (ts : List Tree) → AreKeptHoles ts parts.now
        → Is (id_of_parts kind.now (map (fill (nearest (frames_of turns.now))) ts)) result }
{
    match turns.get(0) {
        Some(turn) => id_of_parts(alloc, kind, parts, Some(&turn.item), Some(&turn.index)),
        None => id_without(alloc, kind, parts),
    }
}

/// The extents of the run, or of expressions without a value where there is no run.
pub(crate) fn run_of(span: Option<Span>) -> Span
    ensures { (fs : List Frame) → AreSpans fs (option_to_list span) → IsSpan (nearest fs) result }
{
    match span {
        Some(span) => span,
        None => {
            let nothing = literal_sizes::no_value();
            Span {
                item: nothing,
                index: nothing,
            }
        }
    }
}
