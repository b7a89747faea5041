// The key of what is right above a resource as a list of numbers.
ghost use Rattle.std.specs.Prelude.{◌≡◌, ◌++◌, ◌-◌, ℕ, List, length, take, IfOk};
ghost use Rattle.key_tags.specs.KeyCodes.{texts_code, key_code, all_but_last, parent_parts};

use crate::code::{push_text, push_texts};
use arm_ids::Key;
use arm_value::{OutOfMemory, Text};
use std::alloc::Global;

// Adds the texts but the last.
fn push_first_texts(tag: &mut Vec<usize>, texts: &[Text]) -> Result<(), OutOfMemory>
    ensures { IfOk result (λ _. (rest : List ℕ) → tag.new.items ++ rest
        ≡ tag.old.items ++ texts_code (all_but_last texts.now) rest) }
{
    let count = texts.len().saturating_sub(1);
    push_texts(tag, &texts[..count])
}

/// The numbers of a key without its last type and its last name: those of the key of its parent, where it has one.
pub fn parent_tag(alloc: Global, key: &Key) -> Result<Vec<usize>, OutOfMemory>
    ensures { IfOk result (λ t. t.items ≡ key_code (parent_parts key.now)) }
{
    let parts = key.parts();
    let mut tag = Vec::new(alloc);
    push_text(&mut tag, &parts.subscription)?;
    push_text(&mut tag, &parts.group)?;
    push_first_texts(&mut tag, parts.types.as_slice())?;
    push_first_texts(&mut tag, parts.names.as_slice())?;
    Ok(tag)
}
