// A key as a list of numbers.
ghost use Rattle.std.specs.Prelude.{◌≡◌, ◌++◌, ◌+◌, ℕ, List, map, chars, IfOk};
ghost use Rattle.key_tags.specs.KeyCodes.{text_code, texts_code, key_code};

use arm_ids::Key;
use arm_value::{OutOfMemory, Text};
use std::alloc::Global;

// Adds each character plus 1.
fn push_characters(tag: &mut Vec<usize>, text: &str) -> Result<(), OutOfMemory>
    ensures { IfOk result (λ _. tag.new.items ≡ tag.old.items ++ map (λ c. c + 1) (chars text.now)) }
{
    for c in text.chars() {
        tag.push(c as usize + 1)?;
    }
    Ok(())
}

// Adds the text.
pub(crate) fn push_text(tag: &mut Vec<usize>, text: &Text) -> Result<(), OutOfMemory>
    ensures { IfOk result (λ _. (rest : List ℕ) → tag.new.items ++ rest ≡ tag.old.items ++ text_code text.now rest) }
{
    push_characters(tag, text.as_str())?;
    tag.push(0)?;
    Ok(())
}

// Adds the texts.
pub(crate) fn push_texts(tag: &mut Vec<usize>, texts: &[Text]) -> Result<(), OutOfMemory>
    ensures { IfOk result (λ _. (rest : List ℕ) → tag.new.items ++ rest
        ≡ tag.old.items ++ texts_code texts.now rest) }
{
    for text in texts {
        tag.push(1)?;
        push_text(tag, text)?;
    }
    tag.push(0)?;
    Ok(())
}

/// The numbers of a key.
pub fn key_tag(alloc: Global, key: &Key) -> Result<Vec<usize>, OutOfMemory>
    ensures { IfOk result (λ t. t.items ≡ key_code key.now) }
{
    let parts = key.parts();
    let mut tag = Vec::new(alloc);
    push_text(&mut tag, &parts.subscription)?;
    push_text(&mut tag, &parts.group)?;
    push_texts(&mut tag, parts.types.as_slice())?;
    push_texts(&mut tag, parts.names.as_slice())?;
    Ok(tag)
}
