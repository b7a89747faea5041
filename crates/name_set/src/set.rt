// Sets of names.
ghost use Rattle.std.specs.Prelude.{◌≡◌, ◌++◌, ◌∷◌, [], IfOk, encode_utf8_all};
ghost use Rattle.arm_value.specs.Look.{fold};
ghost use Rattle.name_set.specs.Names.{is_named};

use arm_value::{OutOfMemory, Text};
use std::alloc::Global;
use std::collections::BTreeSet;
use std::marker::Model;

/// A set of names, which contracts see as the list of the names that were added.
#[derive(Drop)]
pub struct NameSet {
    names: Vec<Text>,
    index: BTreeSet<Vec<u8>>,
}

impl Model for NameSet {
    ghost use Rattle.std.specs.Prelude.{ℕ, List};
    ghost use Rattle.name_set.specs.Names.{IsIndexOf};

    ghost Value = { List (List ℕ) };

    ghost view = { λ a. a.names.items };

    ghost invariant = { λ a. IsIndexOf a.index a.names.items };
}

// The bytes of the name with small letters in place of A to Z.
fn key_of(alloc: Global, name: &Text) -> Result<Vec<u8>, OutOfMemory>
    ensures { IfOk result (λ key. key.items ≡ encode_utf8_all (fold name.now)) }
{
    let folded = Text::from_string(name.as_str().to_ascii_lowercase(alloc)?);
    Ok(folded.into_string().into_bytes())
}

impl NameSet {
    /// The set without a name. It takes no memory.
    pub fn new(alloc: Global) -> NameSet
        ensures { result ≡ [] }
    {
        NameSet {
            names: Vec::new(alloc),
            index: BTreeSet::new(alloc),
        }
    }

    /// Whether the name is in the set, in letters of any case.
    pub fn has(&self, alloc: Global, name: &Text) -> Result<bool, OutOfMemory>
        ensures { IfOk result (λ found. found ≡ is_named self.now name.now) }
    {
        let key = key_of(alloc, name)?;
        Ok(self.index.contains(&key))
    }

    /// The set with one name more.
    pub fn with(self, alloc: Global, name: &Text) -> Result<NameSet, OutOfMemory>
        ensures { IfOk result (λ s. s ≡ self ++ name.now ∷ []) }
    {
        let mut names = self.names;
        let mut index = self.index;
        let key = key_of(alloc, name)?;
        let name = name.copy(alloc)?;
        names.push(name)?;
        index.insert(key)?;
        Ok(NameSet { names, index })
    }
}
