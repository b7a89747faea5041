//! The parts that a name gives to an id.
ghost use Rattle.std.specs.Prelude.{◌≡◌, Option, map, option_map, IfOk};
ghost use Rattle.arm_expr.specs.Tree.{Tree, text as text_tree};
ghost use Rattle.bicep_resolved.specs.Source.{ValueTree};
ghost use Rattle.emitted_declarations.specs.Declared.{parts_of, parts_by_number, segments_from};
ghost use Rattle.kept_expressions.specs.Growth.{Grows};
ghost use Rattle.kept_expressions.specs.Kept.{IsKeptHoles, AreKeptHoles};
ghost use Rattle.kept_parts.specs.Pieces.{piece_of as piece_tree, literal_text};

use crate::growing::still;
use crate::pieces::{Piece, piece_extent, piece_of};
use arm_ids::segments;
use arm_value::{OutOfMemory, Text};
use emitted_parts::literals::text;
use emitted_parts::with;
use emitted_sizes::literals as literal_sizes;
use kept_expressions::probes::{
    Probed, deep_index, deep_item, holed, least, wide_index, wide_item,
};
use kept_expressions::{Holed, KeptHoles, beyond_holes, is_within, keep_holes, least_extent};
use std::alloc::Global;

// How a part of a name grows.
fn piece_holed(piece: Piece, own: Holed) -> Result<Holed, OutOfMemory>
    ensures { (a : Tree) → Grows a own → IfOk result (Grows (piece_tree piece a)) }
{
    let smallest = piece_extent(piece, own.filled(least()));
    let depth = smallest.depth.saturating_add(1);
    holed(Probed {
        least: smallest,
        wide_item: piece_extent(piece, own.filled(wide_item())),
        wide_index: piece_extent(piece, own.filled(wide_index())),
        deep_item: piece_extent(piece, own.filled(deep_item(depth))),
        deep_index: piece_extent(piece, own.filled(deep_index(depth))),
    })
}

/// A part of a name.
pub fn kept_piece(alloc: Global, piece: Piece, own: &KeptHoles) -> Result<KeptHoles, OutOfMemory>
    ensures { (a : Tree) → IsKeptHoles a own.now → IfOk result (IsKeptHoles (piece_tree piece a)) }
{
    let holed = piece_holed(piece, own.holed)?;
    if !is_within(least_extent(holed)) {
        return Ok(beyond_holes(holed));
    }
    keep_holes(holed, piece_of(alloc, piece, own.copied(alloc)))
}

/// A copy.
pub fn copied_holes(alloc: Global, own: &KeptHoles) -> Result<KeptHoles, OutOfMemory>
    ensures { (a : Tree) → IsKeptHoles a own.now → IfOk result (IsKeptHoles a) }
{
    if !is_within(least_extent(own.holed)) {
        return Ok(beyond_holes(own.holed));
    }
    keep_holes(own.holed, own.copied(alloc))
}

// The segments of a name, the last with all that is after them.
fn split_parts(alloc: Global, own: &KeptHoles, last: u32) -> Result<Vec<KeptHoles>, OutOfMemory>
    ensures { (a : Tree) → IsKeptHoles a own.now
        → IfOk result (λ ps. AreKeptHoles (segments_from a 0 last) ps.items) }
{
    let mut all = Vec::new(alloc);
    for number in 0..last {
        match with(Ok(all), kept_piece(alloc, Piece::Segment(number), own)) {
            Ok(more) => all = more,
            Err(error) => return Err(error),
        }
    }
    with(Ok(all), kept_piece(alloc, Piece::Rest(last), own))
}

// The parts of a name that has so many: of two or more, segments.
fn numbered(alloc: Global, own: &KeptHoles, count: u32) -> Result<Vec<KeptHoles>, OutOfMemory>
    ensures { (a : Tree) → IsKeptHoles a own.now
        → IfOk result (λ ps. AreKeptHoles (parts_by_number a count) ps.items) }
{
    if count < 2 {
        with(Ok(Vec::new(alloc)), copied_holes(alloc, own))
    } else {
        split_parts(alloc, own, count - 1)
    }
}

/// A text, which has no holes.
pub fn kept_text(alloc: Global, characters: &Text) -> Result<KeptHoles, OutOfMemory>
    ensures { IfOk result (IsKeptHoles (text_tree characters.now)) }
{
    let holed = still(literal_sizes::text(characters))?;
    if !is_within(least_extent(holed)) {
        return Ok(beyond_holes(holed));
    }
    keep_holes(holed, text(alloc, characters))
}

fn kept_texts(alloc: Global, texts: &[Text]) -> Result<Vec<KeptHoles>, OutOfMemory>
    ensures { IfOk result (λ ps. AreKeptHoles (map text_tree texts.now) ps.items) }
{
    let mut all = Vec::new(alloc);
    for text in texts {
        match with(Ok(all), kept_text(alloc, text)) {
            Ok(more) => all = more,
            Err(error) => return Err(error),
        }
    }
    Ok(all)
}

/// The parts of a name that has so many. Of a text without holes they are its segments, where there are so many.
pub fn parts_of(
    alloc: Global,
    literal: Option<&Text>,
    own: &KeptHoles,
    count: u32,
) -> Result<Vec<KeptHoles>, OutOfMemory>
    ensures { (v : Option ValueTree) (a : Tree) → literal_text v ≡ option_map (λ t. t.now) literal.entry
        → IsKeptHoles a own.now → IfOk result (λ ps. AreKeptHoles (parts_of v a count) ps.items) }
{
    match literal {
        Some(literal) => {
            let texts = segments(alloc, literal.as_str())?;
            if texts.as_slice().len() == count as usize {
                kept_texts(alloc, texts.as_slice())
            } else {
                numbered(alloc, own, count)
            }
        }
        None => numbered(alloc, own, count),
    }
}
