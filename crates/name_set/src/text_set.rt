// Sets of texts that are compared letter by letter.
ghost use Rattle.std.specs.Prelude.{◌≡◌, ◌++◌, ◌∷◌, [], IfOk, encode_utf8_all};
ghost use Rattle.name_set.specs.Names.{is_listed};

use arm_value::{OutOfMemory, Text};
use std::alloc::Global;
use std::collections::BTreeSet;
use std::marker::Model;

/// A set of texts, which contracts see as the list of the texts that were added.
#[derive(Drop)]
pub struct TextSet {
    texts: Vec<Text>,
    index: BTreeSet<Vec<u8>>,
}

impl Model for TextSet {
    ghost use Rattle.std.specs.Prelude.{ℕ, List};
    ghost use Rattle.name_set.specs.Names.{IsTextIndexOf};

    ghost Value = { List (List ℕ) };

    ghost view = { λ a. a.texts.items };

    ghost invariant = { λ a. IsTextIndexOf a.index a.texts.items };
}

// The bytes of the text.
fn key_of(alloc: Global, text: &Text) -> Result<Vec<u8>, OutOfMemory>
    ensures { IfOk result (λ key. key.items ≡ encode_utf8_all text.now) }
{
    Ok(text.copy(alloc)?.into_string().into_bytes())
}

impl TextSet {
    /// The set without a text. It takes no memory.
    pub fn new(alloc: Global) -> TextSet
        ensures { result ≡ [] }
    {
        TextSet {
            texts: Vec::new(alloc),
            index: BTreeSet::new(alloc),
        }
    }

    /// Whether the text is in the set.
    pub fn has(&self, alloc: Global, text: &Text) -> Result<bool, OutOfMemory>
        ensures { IfOk result (λ found. found ≡ is_listed self.now text.now) }
    {
        let key = key_of(alloc, text)?;
        Ok(self.index.contains(&key))
    }

    /// The set with one text more.
    pub fn with(self, alloc: Global, text: &Text) -> Result<TextSet, OutOfMemory>
        ensures { IfOk result (λ s. s ≡ self ++ text.now ∷ []) }
    {
        let mut texts = self.texts;
        let mut index = self.index;
        let key = key_of(alloc, text)?;
        let text = text.copy(alloc)?;
        texts.push(text)?;
        index.insert(key)?;
        Ok(TextSet { texts, index })
    }
}
