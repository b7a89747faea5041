// The keys at which something is put, by which they are looked up.
ghost use Rattle.std.specs.Prelude.{◌≡◌, List, IfOk};
ghost use Rattle.std.specs.List.{list_any};
ghost use Rattle.arm_ids.specs.declared.id.ResourceId.{ResourceId};
ghost use Rattle.deploy_cells.specs.Same.{same_id};
ghost use Rattle.plan_deletes.specs.KeySets.{HasKeys};

use arm_ids::Key;
use arm_value::OutOfMemory;
use key_tags::key_tag;
use std::alloc::Global;
use std::collections::BTreeSet;

/// The numbers of keys.
pub type KeySet = BTreeSet<Vec<usize>>;

/// The set of these keys.
pub fn set_of(alloc: Global, keys: &[Key]) -> Result<KeySet, OutOfMemory>
    ensures { IfOk result (λ s. HasKeys s keys.now) }
{
    let mut set = BTreeSet::new(alloc);
    for key in keys {
        let tag = key_tag(alloc, key)?;
        set.insert(tag)?;
    }
    Ok(set)
}

/// Whether the key is in the set.
pub fn has_key(alloc: Global, set: &KeySet, key: &Key) -> Result<bool, OutOfMemory>
    ensures { IfOk result (λ b. (keys : List ResourceId) → HasKeys set.now keys
        → b ≡ list_any (same_id key.now) keys) }
{
    let tag = key_tag(alloc, key)?;
    Ok(set.contains(&tag))
}
