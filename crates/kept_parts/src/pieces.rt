//! Parts of names.
ghost use Rattle.std.specs.Prelude.{◌≡◌, pos};
ghost use Rattle.arm_expr.specs.Tree.{Tree, int};
ghost use Rattle.arm_expr.specs.View.{tree_of};
ghost use Rattle.emitted_declarations.specs.Declared.{split_name};
ghost use Rattle.emitted_parts.specs.Built.{Is};
ghost use Rattle.emitted_sizes.specs.Extent.{IsOf};
ghost use Rattle.kept_parts.specs.Pieces.{piece_of};

use arm_expr::Expr;
use arm_value::OutOfMemory;
use emitted_parts::accesses::plain_part;
use emitted_parts::calls::call_two;
use emitted_parts::literals::word;
use emitted_sizes::{
    Extent, accesses as access_sizes, calls as call_sizes, literals as literal_sizes,
};
use std::alloc::Global;

/// A part of a name.
#[derive(Clone, Copy)]
pub enum Piece {
    /// The segment of that number.
    Segment(u32),
    /// All segments from that number on, as one text.
    Rest(u32),
}

// Of the segments of a name.
fn split_extent(own: Extent) -> Extent
    ensures { (a : Tree) → IsOf a own → IsOf (split_name a) result }
{
    call_sizes::call_two(5, own, literal_sizes::word("/"))
}

// The extent of a number.
fn number_extent(number: u32) -> Extent
    ensures { IsOf (int (pos number)) result }
{
    literal_sizes::int(i64::from(number))
}

/// The extent of a part of a name of this extent.
pub fn piece_extent(piece: Piece, own: Extent) -> Extent
    ensures { (a : Tree) → IsOf a own → IsOf (piece_of piece a) result }
{
    let split = split_extent(own);
    match piece {
        Piece::Segment(number) => { access_sizes::plain_part(split, number_extent(number)) }
        Piece::Rest(number) => {
            let skipped = call_sizes::call_two(4, split, number_extent(number));
            call_sizes::call_two(4, skipped, literal_sizes::word("/"))
        }
    }
}

// A number.
#[tactic(auto, using(arm_expr::proofs::ViewLemmas::views))]
fn number_of(number: u32) -> Expr
    ensures { tree_of result ≡ int (pos number) }
{
    Expr::Int(i64::from(number))
}

// The segments of a name.
fn split_of(alloc: Global, own: Result<Expr, OutOfMemory>) -> Result<Expr, OutOfMemory>
    ensures { (a : Tree) → Is a own → Is (split_name a) result }
{
    call_two(alloc, "split", own, word(alloc, "/"))
}

/// A part of a name.
pub fn piece_of(
    alloc: Global,
    piece: Piece,
    own: Result<Expr, OutOfMemory>,
) -> Result<Expr, OutOfMemory>
    ensures { (a : Tree) → Is a own → Is (piece_of piece a) result }
{
    let split = split_of(alloc, own);
    match piece {
        Piece::Segment(number) => plain_part(alloc, split, Ok(number_of(number))),
        Piece::Rest(number) => {
            let skipped = call_two(alloc, "skip", split, Ok(number_of(number)));
            call_two(alloc, "join", skipped, word(alloc, "/"))
        }
    }
}
