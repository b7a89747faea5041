// Format texts with their fields filled.
ghost use Rattle.std.specs.Prelude.{◌≡◌, ◌<◌, ◌∷◌, ◌++◌, [], length, drop, map, chars, string_bytes, option_map};
ghost use Rattle.std.specs.Prelude.{option_and_then, IfOk, IfSome, OnOk};
ghost use Rattle.arm_value.specs.Json.{text};
ghost use Rattle.arm_value.specs.View.{json};
ghost use Rattle.function_texts.specs.Numbers.{with_digit};
ghost use Rattle.function_prints.specs.Format as row;
ghost use Rattle.function_prints.specs.Format.{argument_field, field, filled, format_by, is_brace};
ghost use Rattle.function_prints.specs.Filling.{below, ending, filled_after, filled_on, number_before_closing};
ghost use Rattle.function_prints.specs.Filling.{put_after};

use crate::joining::add;
use crate::printed::printed;
use arm_value::{OutOfMemory, Text, Value};
use function_lists::characters::characters_of;
use function_texts::text_of;
use std::alloc::Global;

// The number with one more digit; none where the character is no digit, or from the bound on.
fn with_digit(number: usize, character: char, bound: usize) -> Option<usize>
    ensures { result ≡ option_and_then (below bound) (with_digit number character) }
{
    if character < '0' || '9' < character {
        return None;
    }
    let digit = character as usize - '0' as usize;
    let longer = number.checked_mul(10)?.checked_add(digit)?;
    if longer < bound { Some(longer) } else { None }
}

// The number below the bound that the digits before the first `}` spell, and how many these are.
fn number_before_closing(bound: usize, characters: &[char]) -> Option<(usize, usize)>
    ensures value { result ≡ number_before_closing bound characters.now }
    ensures within { IfSome result (λ found. found.0 < bound) }
    ensures length { IfSome result (λ found. found.1 < length characters.now) }
{
    let mut number = 0;
    for i in 0..characters.len() {
        let character = characters[i];
        if character == '}' {
            return if i > 0 { Some((number, i)) } else { None };
        }
        match with_digit(number, character, bound) {
            Some(longer) => number = longer,
            None => return None,
        }
    }
    None
}

// Puts the character last.
fn put_character(out: &mut String, character: char) -> Result<(), OutOfMemory>
    ensures { OnOk result
        (chars (string_bytes out.new) ≡ chars (string_bytes out.old) ++ character ∷ []) }
{
    out.push(character)?;
    Ok(())
}

// Puts the printed form of the argument of a field last, by the characters after the field's `{`.
// Returns how many of these belong to the field.
fn put_argument(
    alloc: Global,
    out: &mut String,
    args: &[Value],
    following: &[char],
) -> Result<Option<usize>, OutOfMemory>
    ensures { IfOk result (λ taken. ending (chars (string_bytes out.new)) taken
        ≡ put_after (chars (string_bytes out.old))
        (argument_field (map json args.now) following.now)) }
{
    let Some((number, digits)) = number_before_closing(args.len(), following) else {
        return Ok(None);
    };
    let text = printed(alloc, &args[number])?;
    add(out, &text)?;
    Ok(Some(digits + 1))
}

// Puts what a brace means last. Returns how many characters after the brace belong to it.
fn put_field(
    alloc: Global,
    out: &mut String,
    args: &[Value],
    brace: char,
    following: &[char],
) -> Result<Option<usize>, OutOfMemory>
    ensures { IfOk result (λ taken. ending (chars (string_bytes out.new)) taken
        ≡ put_after (chars (string_bytes out.old))
        (field (map json args.now) brace following.now)) }
{
    match following {
        [second, ..] => if *second == brace {
            put_character(out, brace)?;
            Ok(Some(1))
        } else if brace == '{' {
            put_argument(alloc, out, args, following)
        } else {
            Ok(None)
        },
        [] => Ok(None),
    }
}

fn is_brace(character: char) -> bool
    ensures { result ≡ is_brace character }
{
    character == '{' || character == '}'
}

// Continues by one character: it belongs to a field before it, begins a field, or is itself. Returns
// how many characters after it belong to a field.
fn fill_here(
    alloc: Global,
    out: &mut String,
    args: &[Value],
    rest: &[char],
    taken: usize,
) -> Result<Option<usize>, OutOfMemory>
    requires { 0 < length rest.now }
    ensures { IfOk result (λ next.
        filled_on (chars (string_bytes out.new)) (map json args.now) next (drop 1 rest.now)
        ≡ filled_after (chars (string_bytes out.old)) (map json args.now) taken rest.now) }
{
    if taken > 0 {
        return Ok(Some(taken - 1));
    }
    let character = rest[0];
    if is_brace(character) {
        let next = put_field(alloc, out, args, character, &rest[1..])?;
        return Ok(next);
    }
    put_character(out, character)?;
    Ok(Some(0))
}

fn filled(alloc: Global, characters: &[char], args: &[Value]) -> Result<Option<Text>, OutOfMemory>
    ensures { IfOk result (λ text. text ≡ filled (map json args.now) characters.now) }
{
    let mut out = String::new(alloc);
    let mut taken = 0usize;
    for i in 0..characters.len() {
        match fill_here(alloc, &mut out, args, &characters[i..], taken)? {
            Some(next) => taken = next,
            None => return Ok(None),
        }
    }
    Ok(Some(Text::from_string(out)))
}

fn format_by(alloc: Global, value: &Value, args: &[Value]) -> Result<Option<Value>, OutOfMemory>
    ensures { IfOk result (λ found. option_map json found
        ≡ format_by (json value.now) (map json args.now)) }
{
    match text_of(value) {
        Some(text) => {
            let characters = characters_of(alloc, text)?;
            match filled(alloc, characters.as_slice(), args)? {
                Some(text) => Ok(Some(Value::Text(text))),
                None => Ok(None),
            }
        }
        None => Ok(None),
    }
}

/// `format`: the text with the printed form of an argument in place of its number in braces, as
/// `{0}` for the first one after the text, and one brace in place of two. None where a brace is
/// anywhere else, as in `{0:N0}`, or where there is no such argument.
pub fn format(alloc: Global, args: &[Value]) -> Result<Option<Value>, OutOfMemory>
    ensures { IfOk result (λ value. option_map json value ≡ row.format (map json args.now)) }
{
    match args {
        [value, args @ ..] => format_by(alloc, value, args),
        [] => Ok(None),
    }
}
