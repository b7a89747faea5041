// What tokens mean.

ghost use Rattle.std.specs.Prelude.{◌≡◌, ℕ, ◌+◌, ◌++◌, ◌∷◌, List, [], ◌≤◌, ◌<◌, ◌^◌, length, string_bytes};
ghost use Rattle.std.specs.Prelude.{unwrap_or, IfOk, OnOk};
ghost use Rattle.std.specs.Str.{chars, IsUtf8};
ghost use Rattle.bicep_lexer.specs.Escapes.{hexadecimal, simple_escape};
ghost use Rattle.bicep_lexer.specs.Skipped.{newline_length};
ghost use Rattle.bicep_lexer.specs.Signs.{Sign, AreSigns, IsBetween, IsSigned, IsMeant, written, meant};
ghost use Rattle.bicep_lexer.specs.Values.{with_digit, character_of, unescaped_from, unescaped, inside};
ghost use Rattle.bicep_lexer.specs.Values.{below_newline, value_of};

use crate::escapes::hexadecimal;
use crate::kind::TokenKind;
use crate::token::Token;
use arm_value::{OutOfMemory, Text};
use std::alloc::{AllocError, Global};

/// What the characters so far say of the next one.
#[derive(Clone, Copy)]
pub enum Mode {
    /// It is itself, or it is a `\`.
    Plain,
    /// It follows a `\`.
    Escaped,
    /// It is in `u{h}`, after digits of this value.
    Braced(u32),
}

fn put(text: &mut String, character: char) -> Result<(), AllocError>
    ensures { OnOk result (chars (string_bytes text.new) ≡ chars (string_bytes text.old) ++ character ∷ []) }
{
    text.push(character)?;
    Ok(())
}

fn with_digit(number: u32, digit: Option<u32>) -> u32
    ensures { result ≡ with_digit number digit }
{
    match digit {
        Some(digit) => number.saturating_mul(16).saturating_add(digit),
        None => number,
    }
}

fn put_number(text: &mut String, number: u32) -> Result<(), AllocError>
    ensures { OnOk result (chars (string_bytes text.new) ≡ chars (string_bytes text.old) ++ character_of number) }
{
    match char::from_u32(number) {
        Some(character) => put(text, character),
        None => Ok(()),
    }
}

fn escape_of(character: char) -> char
    ensures { result ≡ unwrap_or (simple_escape character) character }
{
    match character {
        'n' => '\n',
        'r' => '\r',
        't' => '\t',
        _ => character,
    }
}

fn turn(text: &mut String, mode: Mode, character: char) -> Result<Mode, AllocError>
    ensures { IfOk result (λ next. (rest : List ℕ) → chars (string_bytes text.new) ++ unescaped_from next rest
        ≡ chars (string_bytes text.old) ++ unescaped_from mode (character ∷ rest)) }
{
    match mode {
        Mode::Plain => {
            if character == '\\' {
                return Ok(Mode::Escaped);
            }
            put(text, character)?;
            Ok(Mode::Plain)
        }
        Mode::Escaped => {
            if character == 'u' {
                return Ok(Mode::Braced(0));
            }
            put(text, escape_of(character))?;
            Ok(Mode::Plain)
        }
        Mode::Braced(number) => {
            if character != '}' {
                return Ok(Mode::Braced(with_digit(number, hexadecimal(u32::from(character)))));
            }
            put_number(text, number)?;
            Ok(Mode::Plain)
        }
    }
}

/// The characters with each escape replaced by the character that it means.
#[tactic(auto, using(crate::proofs::Characters::characters))]
fn unescaped(alloc: Global, characters: &[char]) -> Result<String, AllocError>
    ensures { IfOk result (λ text. chars (string_bytes text) ≡ unescaped characters.now) }
{
    let mut text = String::new(alloc);
    let mut mode = Mode::Plain;
    for character in characters {
        mode = turn(&mut text, mode, *character)?;
    }
    Ok(text)
}

/// The characters as a string.
#[tactic(auto, using(crate::proofs::Characters::characters))]
fn written(alloc: Global, characters: &[char]) -> Result<String, AllocError>
    ensures { IfOk result (λ text. chars (string_bytes text) ≡ characters.now) }
{
    let mut text = String::new(alloc);
    for character in characters {
        put(&mut text, *character)?;
    }
    Ok(text)
}

/// The characters without the first `front` and the last `back`; none where there are fewer.
fn inside(characters: &[char], front: usize, back: usize) -> &[char]
    requires { front + back < 2 ^ 64 }
    ensures { result.now ≡ inside front back characters.now }
{
    if characters.len() < front + back {
        return &[];
    }
    &characters[front..characters.len() - back]
}

/// The characters without a first LF or CR LF.
fn below_newline(characters: &[char]) -> &[char]
    ensures { result.now ≡ below_newline characters.now }
{
    match characters {
        ['\n', rest @ ..] => rest,
        ['\r', '\n', rest @ ..] => rest,
        _ => characters,
    }
}

fn characters_of(alloc: Global, text: &str) -> Result<Vec<char>, AllocError>
    ensures characters { IfOk result (λ characters. characters.items ≡ chars text.now) }
    ensures utf8 { IsUtf8 text.now }
{
    text.chars().collect(alloc)
}

fn value_of(alloc: Global, kind: TokenKind, characters: &[char]) -> Result<String, AllocError>
    ensures { IfOk result (λ text. chars (string_bytes text) ≡ value_of kind characters.now) }
{
    match kind {
        TokenKind::Text | TokenKind::RightPiece => unescaped(alloc, inside(characters, 1, 1)),
        TokenKind::LeftPiece | TokenKind::MiddlePiece => unescaped(alloc, inside(characters, 1, 2)),
        TokenKind::VerbatimText => written(alloc, below_newline(inside(characters, 3, 3))),
        _ => written(alloc, characters),
    }
}

impl Token<'_> {
    /// The characters that the token means. Of a text or a piece of one these are the characters between
    /// its ends, with each escape replaced by the character that it means. Of a verbatim text these are the
    /// characters between its quotes, without a line end right after the opening. Of any other token these
    /// are its own characters.
    pub fn value(&self, alloc: Global) -> Result<Text, OutOfMemory>
        ensures value { IfOk result (λ text. text ≡ value_of self.now.kind (chars self.now.text.now)) }
        ensures meant { IfOk result (λ text. (signs : List Sign) → AreSigns signs
            → IsBetween self.now.kind (chars self.now.text.now) (written signs) → text ≡ meant signs) }
        ensures signed { IfOk result (λ text. IsSigned self.now.kind self.now.text.now
            → IsMeant self.now.kind (chars self.now.text.now) text) }
    {
        let characters = characters_of(alloc, self.text)?;
        let value = value_of(alloc, self.kind, &characters)?;
        Ok(Text::from_string(value))
    }
}
