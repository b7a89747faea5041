// Two keys that are the same.
ghost use Rattle.std.specs.Prelude.{◌≡◌, ◌∷◌, [], ℕ, map, IfOk, MatchOption};
ghost use Rattle.tag_needs.specs.Tags.{tags_of, tags_in};
ghost use Rattle.key_tags.specs.KeyCodes.{key_code};
ghost use Rattle.key_tags.specs.SameKeys.{AreSame};

use crate::code::key_tag;
use arm_ids::Key;
use arm_value::OutOfMemory;
use std::alloc::Global;
use tag_needs::find_shared;

// The one tag of a key.
fn one_tag(alloc: Global, key: &Key) -> Result<Vec<Vec<usize>>, OutOfMemory>
    ensures { IfOk result (λ v. tags_of v ≡ key_code key.now ∷ []) }
{
    let tag = key_tag(alloc, key)?;
    let mut tags = Vec::new(alloc);
    tags.push(tag)?;
    Ok(tags)
}

// The tags of all keys.
fn list_tags(alloc: Global, keys: &[Key]) -> Result<Vec<Vec<Vec<usize>>>, OutOfMemory>
    ensures { IfOk result (λ v. tags_in v.items ≡ map (λ k. key_code k ∷ []) keys.now) }
{
    let mut all = Vec::new(alloc);
    for key in keys {
        let tags = one_tag(alloc, key)?;
        all.push(tags)?;
    }
    Ok(all)
}

/// The places of two keys that are the same, the lower one first; none exactly where all differ.
pub fn find_same(alloc: Global, keys: &[Key]) -> Result<Option<(usize, usize)>, OutOfMemory>
    ensures same { IfOk result (λ o. MatchOption o (Unit {0}) (λ p. AreSame keys.now p.0 p.1)) }
    ensures apart { IfOk result (λ o. MatchOption o ((i j : ℕ) → AreSame keys.now i j → ⊥) (λ _. Unit {0})) }
{
    let tags = list_tags(alloc, keys)?;
    let found = find_shared(alloc, tags.as_slice())?;
    Ok(found)
}
