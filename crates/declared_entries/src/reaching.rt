//! The loops around declarations, where one of their elements is used in a loop.
ghost use Rattle.std.specs.Prelude.{◌∷◌, [], List, map, if◌then◌else◌, IfOk};
ghost use Rattle.arm_expr.specs.Tree.{Tree};
ghost use Rattle.bicep_resolved.specs.View.{source_of, reach_of};
ghost use Rattle.bicep_emission.specs.Emittable.{IsEmittable, IsReach};
ghost use Rattle.bicep_emission.specs.Emitted.{Frame, element, emitted, frames_of, no_value as no_value_tree};
ghost use Rattle.declaration_laws.specs.Sound.{IsSound};
ghost use Rattle.emission_laws.specs.Holes.{fill, holes, nearest};
ghost use Rattle.kept_expressions.specs.Kept.{IsKeptHoles, AreKeptHoles};
ghost use Rattle.kept_parts.specs.Frames.{IsKeptFrame};
ghost use Rattle.declared_table.specs.Seen.{file_in, files_in, is_known, whole_in, emission_in};

use crate::variables::nothing;
use arm_value::OutOfMemory;
use bicep_resolved::{Reach, Source};
use declared_table::Table;
use emitted_parts::{lacks, letting_go};
use kept_expressions::{KeptHoles, made_holes};
use kept_parts::{KeptFrame, element_frame, no_frame, placed_all};
use std::alloc::Global;

// The run of the loop of a symbol that is in no table.
fn element_of_nothing(alloc: Global, index: KeptHoles) -> Result<KeptFrame, OutOfMemory>
    ensures { (i : Tree) → IsKeptHoles i index → IfOk result (IsKeptFrame (element no_value_tree i)) }
{
    match nothing(alloc) {
        Ok(over) => letting_go(element_frame(alloc, &over, index), over),
        Err(_) => lacks(index),
    }
}

// The run of the loop of a symbol at an index.
fn element_at(
    alloc: Global,
    table: &Table,
    number: usize,
    index: KeptHoles,
) -> Result<KeptFrame, OutOfMemory>
    requires sound { IsSound (file_in table.now) }
    ensures { (i : Tree) → IsKeptHoles i index
        → IfOk result (IsKeptFrame (element ((emission_in table.now).scope.items number) i)) }
{
    match table.entry(number) {
        Some(entry) => element_frame(alloc, &entry.items, index),
        None => element_of_nothing(alloc, index),
    }
}

/// An expression, with holes for the loop around it.
pub(crate) fn own_expression(
    alloc: Global,
    table: &Table,
    own: &Source,
) -> Result<KeptHoles, OutOfMemory>
    requires sound { IsSound (file_in table.now) }
    requires own { IsEmittable (source_of own.now) }
    ensures { IfOk result (IsKeptHoles (emitted (file_in table.now) (files_in table.now)
        (emission_in table.now).scope (source_of own.now) (holes ∷ []))) }
{
    made_holes(alloc, table, own)
}

/// The loop around a declaration, where one of its elements is used in a loop: an item and an index with holes.
#[tactic(auto, using(bicep_resolved::proofs::ViewLemmas::enums))]
pub(crate) fn reached(alloc: Global, table: &Table, reach: &Reach) -> Result<KeptFrame, OutOfMemory>
    requires sound { IsSound (file_in table.now) }
    requires reach { IsReach (reach_of reach.now) }
    ensures { IfOk result (IsKeptFrame (nearest (frames_of (file_in table.now) (files_in table.now)
        (emission_in table.now).scope (reach_of reach.now) (holes ∷ [])))) }
{
    match reach {
        Reach::Symbol(_, _) => no_frame(alloc),
        Reach::Element(_, target, index) => {
            let index = own_expression(alloc, table, index)?;
            element_at(alloc, table, target.number(), index)
        }
    }
}

// The parts of a resource with this run in their holes; of what is in no table there are none.
fn placed_parts(
    alloc: Global,
    table: &Table,
    number: usize,
    frame: &KeptFrame,
) -> Result<Vec<KeptHoles>, OutOfMemory>
    ensures { (f : Frame) → IsKeptFrame f frame.now
        → IfOk result (λ ps. AreKeptHoles (if is_known table.now number
        then map (fill f) ((whole_in table.now).parts number (holes ∷ [])) else []) ps.items) }
{
    match table.entry(number) {
        Some(entry) => placed_all(alloc, entry.parts.as_slice(), frame),
        None => Ok(Vec::new(alloc)),
    }
}

/// The parts of the resource of a number, which is used in this loop.
pub(crate) fn parts_in(
    alloc: Global,
    table: &Table,
    number: usize,
    frame: Result<KeptFrame, OutOfMemory>,
) -> Result<Vec<KeptHoles>, OutOfMemory>
    ensures { (fs : List Frame) → IfOk frame (IsKeptFrame (nearest fs))
        → IfOk result (λ ps. AreKeptHoles ((emission_in table.now).parts number fs) ps.items) }
{
    match frame {
        Ok(frame) => letting_go(placed_parts(alloc, table, number, &frame), frame),
        Err(error) => Err(error),
    }
}
