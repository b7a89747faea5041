// Texts cut at delimiters.
ghost use Rattle.std.specs.Prelude.{◌≡◌, ◌∷◌, ◌++◌, [], true, map, option_map, IfOk, OnOk};
ghost use Rattle.arm_value.specs.Json.{text};
ghost use Rattle.arm_value.specs.View.{json};
ghost use Rattle.function_texts.specs.Cuts as row;
ghost use Rattle.function_texts.specs.Cuts.{pieces, texts_in, delimiters, none_empty, can_cut, split_text, split_by};

use crate::marks::{marks_of, next_mark};
use arm_value::{OutOfMemory, Text, Value};
use function_lists::characters::{characters_of, text_of_characters};
use function_lists::values::array_of;
use function_numbers::kinds::text_of;
use std::alloc::Global;

// Puts the piece last, as a text.
fn put_piece(alloc: Global, all: &mut Vec<Value>, piece: &[char]) -> Result<(), OutOfMemory>
    ensures { OnOk result (map json all.new.items ≡ map json all.old.items ++ text piece.now ∷ []) }
{
    let piece = text_of_characters(alloc, piece)?;
    all.push(Value::Text(piece))?;
    Ok(())
}

// Puts the texts of the pieces between the delimiters last.
fn put_pieces(
    alloc: Global,
    all: &mut Vec<Value>,
    characters: &[char],
    delimiters: &[Vec<char>],
) -> Result<(), OutOfMemory>
    requires { none_empty (map (λ d. d.items) delimiters.now) ≡ true }
    ensures { OnOk result (map json all.new.items
        ≡ map json all.old.items ++ map text (pieces (map (λ d. d.items) delimiters.now) characters.now)) }
{
    let marks = marks_of(alloc, delimiters, characters)?;
    let mut start = 0usize;
    'cuts: while let Some(mark) = next_mark(marks.as_slice(), start) {
        put_piece(alloc, all, &characters[start..mark.place])?;
        start = mark.place + mark.length;
    }
    put_piece(alloc, all, &characters[start..])
}

fn pieces_of(
    alloc: Global,
    characters: &[char],
    delimiters: &[Vec<char>],
) -> Result<Vec<Value>, OutOfMemory>
    requires { none_empty (map (λ d. d.items) delimiters.now) ≡ true }
    ensures { IfOk result (λ all. map json all.items
        ≡ map text (pieces (map (λ d. d.items) delimiters.now) characters.now)) }
{
    let mut all = Vec::new(alloc);
    put_pieces(alloc, &mut all, characters, delimiters)?;
    Ok(all)
}

// The characters of the texts that all of these are.
fn texts_in(alloc: Global, values: &[Value]) -> Result<Option<Vec<Vec<char>>>, OutOfMemory>
    ensures { IfOk result (λ all. option_map (λ v. map (λ d. d.items) v.items) all ≡ texts_in (map json values.now)) }
{
    let mut all = Vec::new(alloc);
    for value in values {
        match text_of(value) {
            Some(text) => {
                let characters = characters_of(alloc, text)?;
                all.push(characters)?;
            }
            None => return Ok(None),
        }
    }
    Ok(Some(all))
}

fn alone(alloc: Global, text: &Text) -> Result<Vec<Vec<char>>, OutOfMemory>
    ensures { IfOk result (λ all. map (λ d. d.items) all.items ≡ text.now ∷ []) }
{
    let mut all = Vec::new(alloc);
    all.push(characters_of(alloc, text)?)?;
    Ok(all)
}

#[tactic(auto, using(crate::proofs::RowRules::items_of_row))]
fn delimiters(alloc: Global, value: &Value) -> Result<Option<Vec<Vec<char>>>, OutOfMemory>
    ensures { IfOk result (λ all. option_map (λ v. map (λ d. d.items) v.items) all ≡ delimiters (json value.now)) }
{
    match value {
        Value::Text(text) => Ok(Some(alone(alloc, text)?)),
        Value::Array(items) => texts_in(alloc, items.as_slice()),
        _ => Ok(None),
    }
}

fn are_not_empty(delimiters: &[Vec<char>]) -> bool
    ensures { result ≡ none_empty (map (λ d. d.items) delimiters.now) }
{
    for text in delimiters {
        if text.as_slice().is_empty() {
            return false;
        }
    }
    true
}

fn can_cut(delimiters: &[Vec<char>]) -> bool
    ensures { result ≡ can_cut (map (λ d. d.items) delimiters.now) }
{
    !delimiters.is_empty() && are_not_empty(delimiters)
}

fn split_text(
    alloc: Global,
    value: &Text,
    delimiters: &[Vec<char>],
) -> Result<Option<Value>, OutOfMemory>
    ensures { IfOk result (λ all. option_map json all
        ≡ split_text value.now (map (λ d. d.items) delimiters.now)) }
{
    if !can_cut(delimiters) {
        return Ok(None);
    }
    let characters = characters_of(alloc, value)?;
    Ok(array_of(pieces_of(alloc, characters.as_slice(), delimiters)?))
}

fn split_by(alloc: Global, value: &Value, delimiter: &Value) -> Result<Option<Value>, OutOfMemory>
    ensures { IfOk result (λ all. option_map json all ≡ split_by (json value.now) (json delimiter.now)) }
{
    match text_of(value) {
        Some(value) => match delimiters(alloc, delimiter)? {
            Some(delimiters) => split_text(alloc, value, delimiters.as_slice()),
            None => Ok(None),
        },
        None => Ok(None),
    }
}

/// `split`: the pieces of a text between delimiters, which are one text or an array of texts; of
/// several at one place the first in their order counts. None where one is empty, or there is none.
pub fn split(alloc: Global, args: &[Value]) -> Result<Option<Value>, OutOfMemory>
    ensures { IfOk result (λ value. option_map json value ≡ row.split (map json args.now)) }
{
    match args {
        [value, delimiter] => split_by(alloc, value, delimiter),
        _ => Ok(None),
    }
}
