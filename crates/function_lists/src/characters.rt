//! Texts as their characters, and back.
ghost use Rattle.std.specs.Prelude.{◌≡◌, ◌++◌, ◌∷◌, ◌-◌, [], take, drop, length, chars, string_bytes, IfOk, OnOk};

use arm_value::{OutOfMemory, Text};
use std::alloc::Global;

/// The characters of the text (Unicode scalar values).
pub fn characters_of(alloc: Global, text: &Text) -> Result<Vec<char>, OutOfMemory>
    ensures { IfOk result (λ characters. characters.items ≡ text.now) }
{
    characters_in(alloc, text.as_str())
}

fn characters_in(alloc: Global, text: &str) -> Result<Vec<char>, OutOfMemory>
    ensures { IfOk result (λ characters. characters.items ≡ chars text.now) }
{
    text.chars().collect(alloc)
}

// Puts the character last.
fn put(text: &mut String, character: char) -> Result<(), OutOfMemory>
    ensures { OnOk result (chars (string_bytes text.new) ≡ chars (string_bytes text.old) ++ character ∷ []) }
{
    text.push(character)?;
    Ok(())
}

/// The text of the characters.
#[tactic(auto, using(crate::proofs::CharacterLemmas::characters))]
pub fn text_of_characters(alloc: Global, characters: &[char]) -> Result<Text, OutOfMemory>
    ensures { IfOk result (λ text. text ≡ characters.now) }
{
    let mut text = String::new(alloc);
    for character in characters {
        put(&mut text, *character)?;
    }
    Ok(Text::from_string(text))
}

/// What is left of the text after so many characters. It reads no further.
pub(crate) fn after_front(text: &str, count: u64) -> &str
    ensures { chars result.now ≡ drop count (chars text.now) }
{
    let mut characters = text.chars();
    let mut left = count;
    while left != 0 {
        match characters.next() {
            Some(_) => left -= 1,
            None => return characters.as_str(),
        }
    }
    characters.as_str()
}

/// So many characters at the front of the text. It reads no further.
pub(crate) fn front_of(text: &str, count: u64) -> &str
    ensures { chars result.now ≡ take count (chars text.now) }
{
    let rest = after_front(text, count);
    let (front, _) = text.split_at(text.len() - rest.len());
    front
}

/// The last character of the text, read from its end; of an empty text nothing.
pub(crate) fn last_of(text: &str) -> &str
    ensures { chars result.now ≡ drop (length (chars text.now) - 1) (chars text.now) }
{
    let mut characters = text.chars();
    match characters.next_back() {
        Some(_) => {
            let front = characters.as_str();
            let (_, last) = text.split_at(front.len());
            last
        }
        None => text,
    }
}
