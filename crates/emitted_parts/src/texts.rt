//! What texts with holes become.
ghost use Rattle.std.specs.Prelude.{◌≡◌, ◌++◌, ◌∷◌, [], chars, map, OnOk};
ghost use Rattle.std.specs.Fmt.{decimal};
ghost use Rattle.arm_expr.specs.Print.{Adds};
ghost use Rattle.arm_expr.specs.Tree.{text};
ghost use Rattle.arm_expr.specs.View.{text_of};
ghost use Rattle.bicep_resolved.specs.View.{piece_of, pieces as piece_trees};
ghost use Rattle.bicep_emission.specs.Texts.{written_twice, doubled_onto, hole_onto, format_text as format_spec};
ghost use Rattle.emitted_parts.specs.Built.{Is, IsText};

use arm_expr::Expr;
use arm_value::{OutOfMemory, Text};
use bicep_resolved::Piece;
use std::alloc::Global;

fn put(out: &mut String, c: char) -> Result<(), OutOfMemory>
    ensures { OnOk result (text_of out.new ≡ text_of out.old ++ c ∷ []) }
{
    out.push(c)?;
    Ok(())
}

// A character, a brace twice.
fn put_twice(out: &mut String, c: char) -> Result<(), OutOfMemory>
    ensures { OnOk result (Adds (text_of out.old) (text_of out.new) (λ k. written_twice c k)) }
{
    if c == '{' || c == '}' {
        put(out, c)?;
    }
    put(out, c)
}

fn put_doubled(out: &mut String, characters: &str) -> Result<(), OutOfMemory>
    ensures { OnOk result (Adds (text_of out.old) (text_of out.new) (λ k. doubled_onto (chars characters.now) k)) }
{
    for c in characters.chars() {
        put_twice(out, c)?;
    }
    Ok(())
}

fn put_number(out: &mut String, number: usize) -> Result<(), OutOfMemory>
    ensures { OnOk result (text_of out.new ≡ text_of out.old ++ decimal number) }
{
    write!(out, "{number}")?;
    Ok(())
}

fn put_hole(out: &mut String, number: usize) -> Result<(), OutOfMemory>
    ensures { OnOk result (Adds (text_of out.old) (text_of out.new) (λ k. hole_onto number k)) }
{
    put(out, '{')?;
    put_number(out, number)?;
    put(out, '}')
}

// A hole by its number, and the characters after it.
#[tactic(auto, using(bicep_resolved::proofs::ViewLemmas::structs))]
fn put_piece(out: &mut String, number: usize, piece: &Piece) -> Result<(), OutOfMemory>
    ensures { OnOk result (Adds (text_of out.old) (text_of out.new)
        (λ k. hole_onto number (doubled_onto (piece_of piece.now).1 k))) }
{
    put_hole(out, number)?;
    put_doubled(out, piece.after.as_str())
}

/// The text of `format` for a text with holes: braces doubled, and each hole by its number in braces.
pub fn format_text(alloc: Global, first: &Text, pieces: &[Piece]) -> Result<Text, OutOfMemory>
    ensures { IsText (format_spec 0 first.now (piece_trees (map piece_of pieces.now))) result }
{
    let mut out = String::new(alloc);
    put_doubled(&mut out, first.as_str())?;
    let mut number = 0;
    for piece in pieces {
        put_piece(&mut out, number, piece)?;
        number += 1;
    }
    Ok(Text::from_string(out))
}

/// That text as an expression.
pub fn format_argument(alloc: Global, first: &Text, pieces: &[Piece]) -> Result<Expr, OutOfMemory>
    ensures { Is (text (format_spec 0 first.now (piece_trees (map piece_of pieces.now)))) result }
{
    Ok(Expr::Text(format_text(alloc, first, pieces)?))
}
