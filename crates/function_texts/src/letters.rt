// Letters and ends of texts.
ghost use Rattle.std.specs.Prelude.{◌≡◌, ◌∷◌, [], map, option_map, IfOk};
ghost use Rattle.arm_value.specs.Json.{text};
ghost use Rattle.arm_value.specs.View.{json};
ghost use Rattle.function_numbers.specs.Kinds.{text_of};
ghost use Rattle.function_texts.specs.Letters as row;
ghost use Rattle.function_texts.specs.Letters.{cased, is_blank, without_blanks, up_to_blanks};

use arm_value::{OutOfMemory, Text, Value};
use function_lists::characters::{characters_of, text_of_characters};
use function_numbers::kinds::text_of;
use std::alloc::Global;

/// Which letters a text is to have.
#[derive(Clone, Copy)]
pub enum Case {
    /// `a` to `z` in place of `A` to `Z`
    Small,
    /// `A` to `Z` in place of `a` to `z`
    Capital,
}

fn cased(case: Case, character: char) -> char
    ensures { result ≡ cased case character }
{
    match case {
        Case::Small => character.to_ascii_lowercase(),
        Case::Capital => character.to_ascii_uppercase(),
    }
}

/// The characters with their ASCII letters small or capital.
pub fn all_cased(alloc: Global, case: Case, characters: &[char]) -> Result<Vec<char>, OutOfMemory>
    ensures { IfOk result (λ all. all.items ≡ map (cased case) characters.now) }
{
    let mut all = Vec::new(alloc);
    for character in characters {
        all.push(cased(case, *character))?;
    }
    Ok(all)
}

fn text_cased(alloc: Global, case: Case, text: &Text) -> Result<Text, OutOfMemory>
    ensures { IfOk result (λ t. t ≡ map (cased case) text.now) }
{
    let characters = characters_of(alloc, text)?;
    let all = all_cased(alloc, case, characters.as_slice())?;
    text_of_characters(alloc, all.as_slice())
}

fn value_cased(alloc: Global, case: Case, value: &Value) -> Result<Option<Value>, OutOfMemory>
    ensures { IfOk result (λ all. option_map json all
        ≡ option_map (λ s. text (map (cased case) s)) (text_of (json value.now))) }
{
    match text_of(value) {
        Some(text) => Ok(Some(Value::Text(text_cased(alloc, case, text)?))),
        None => Ok(None),
    }
}

/// `toLower`: the text with small letters in place of `A` to `Z`.
pub fn to_lower(alloc: Global, args: &[Value]) -> Result<Option<Value>, OutOfMemory>
    ensures { IfOk result (λ value. option_map json value ≡ row.to_lower (map json args.now)) }
{
    match args {
        [value] => value_cased(alloc, Case::Small, value),
        _ => Ok(None),
    }
}

/// `toUpper`: the text with capital letters in place of `a` to `z`.
pub fn to_upper(alloc: Global, args: &[Value]) -> Result<Option<Value>, OutOfMemory>
    ensures { IfOk result (λ value. option_map json value ≡ row.to_upper (map json args.now)) }
{
    match args {
        [value] => value_cased(alloc, Case::Capital, value),
        _ => Ok(None),
    }
}

fn is_blank(character: char) -> bool
    ensures { result ≡ is_blank character }
{
    let code = character as u32;
    (9 <= code && code < 14) || code == 32
}

fn without_blanks(characters: &[char]) -> &[char]
    ensures { result.now ≡ without_blanks characters.now }
{
    let mut start = 0usize;
    'front: while start < characters.len() {
        if is_blank(characters[start]) {
            start += 1;
        } else {
            return &characters[start..];
        }
    }
    &[]
}

fn up_to_blanks(characters: &[char]) -> &[char]
    ensures { result.now ≡ up_to_blanks characters.now }
{
    let mut end = characters.len();
    'back: while end > 0 {
        if is_blank(characters[end - 1]) {
            end -= 1;
        } else {
            return &characters[..end];
        }
    }
    &[]
}

fn trimmed(alloc: Global, text: &Text) -> Result<Text, OutOfMemory>
    ensures { IfOk result (λ t. t ≡ up_to_blanks (without_blanks text.now)) }
{
    let characters = characters_of(alloc, text)?;
    text_of_characters(alloc, up_to_blanks(without_blanks(characters.as_slice())))
}

fn value_trimmed(alloc: Global, value: &Value) -> Result<Option<Value>, OutOfMemory>
    ensures { IfOk result (λ all. option_map json all ≡ row.trim (json value.now ∷ [])) }
{
    match text_of(value) {
        Some(text) => Ok(Some(Value::Text(trimmed(alloc, text)?))),
        None => Ok(None),
    }
}

/// `trim`: the text without U+0009 to U+000D and U+0020 at both ends.
pub fn trim(alloc: Global, args: &[Value]) -> Result<Option<Value>, OutOfMemory>
    ensures { IfOk result (λ value. option_map json value ≡ row.trim (map json args.now)) }
{
    match args {
        [value] => value_trimmed(alloc, value),
        _ => Ok(None),
    }
}
