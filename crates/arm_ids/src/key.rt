// Keys: what resource ids name, whatever the case of their letters.
ghost use Rattle.std.specs.Prelude.{◌≡◌, ◌↔◌, chars, IsTrue, IfOk, IfErr};

use crate::fault::IdFault;
use crate::id::{Place, ResourceId};
use crate::segment::{folded, is_front, same_texts};
use arm_value::{OutOfMemory, Text};
use std::alloc::Global;
use std::marker::Model;

/// What an id names, whatever the case of its letters: the parts of the id in small ASCII letters.
///
/// There is one type segment more than names, at least one name, and no empty segment.
#[derive(Debug, Drop)]
pub struct Key {
    parts: ResourceId,
    // The key's id, kept since keys are ordered by it.
    id: Text,
}

impl Model for Key {
    ghost use Rattle.std.specs.Prelude.{◌≡◌};
    ghost use Rattle.arm_ids.specs.declared.id.ResourceId.{ResourceId};
    ghost use Rattle.arm_ids.specs.Id.{IsKey, folded_text};

    ghost Value = { ResourceId };

    ghost view = { λ k. k.parts };

    ghost invariant = { λ k. IsKey k.parts × (k.id ≡ folded_text k.parts) };
}

impl Key {
    ghost use Rattle.arm_ids.specs.declared.id.ResourceId.{ResourceId};
    ghost use Rattle.arm_ids.specs.Id.{resource_at, folded, folded_text, IsResourceId, IsKey, IsPlain};
    ghost use Rattle.arm_ids.specs.Id.{IsIdOf, IsNoKey, Refuses};
    ghost use Rattle.arm_ids.specs.Parent.{IsParent};

    /// The key of a resource in the subscription and group of a place, by its full type and its full name.
    ///
    /// # Errors
    ///
    /// `EmptySegment` exactly where the subscription, the group, or a segment of type or name is empty; else
    /// `SegmentsDiffer` exactly where the type has not one segment more than the name.
    pub fn of(alloc: Global, place: &Place, kind: &str, name: &str) -> Result<Key, IdFault>
        ensures ok { IfOk result (λ k. k ≡ folded (resource_at place.now kind.now name.now)) }
        ensures is_key { IfOk result IsKey }
        ensures fault { IfErr result (Refuses (resource_at place.now kind.now name.now)) }
    {
        let id = ResourceId::of(alloc, place, kind, name)?;
        Ok(id.key(alloc)?)
    }

    /// The key of which the text is an id. The fixed words may have letters of any case.
    ///
    /// # Errors
    ///
    /// `NotAnId` exactly where the text is the id of no key.
    pub fn read_id(alloc: Global, id: &str) -> Result<Key, IdFault>
        ensures ok { IfOk result (IsIdOf (chars id.now)) }
        ensures only { IfOk result (λ k. (other : ResourceId) → IsIdOf (chars id.now) other
            → other ≡ k) }
        ensures fault { IfErr result (IsNoKey (chars id.now)) }
    {
        let id = folded(alloc, id)?;
        let parts = ResourceId::read(alloc, id.as_str())?;
        Ok(Key { parts, id })
    }

    /// The key's id, in small ASCII letters.
    pub fn to_id(&self, alloc: Global) -> Result<Text, OutOfMemory>
        ensures text { IfOk result (λ t. t ≡ folded_text self.now) }
        ensures reads_back { IfOk result (λ t. IsPlain self.now → IsIdOf t self.now) }
    {
        self.id.copy(alloc)
    }

    /// The key's id as a text that it keeps.
    pub fn id(&self) -> &Text
        ensures { result.now ≡ folded_text self.now }
    {
        &self.id
    }

    // The id that the key keeps, of which the key is made no more use.
    pub(crate) fn into_id(self) -> Text
        ensures { result ≡ folded_text self }
    {
        self.id
    }

    /// The key's parts.
    pub fn parts(&self) -> &ResourceId
        ensures parts { result.now ≡ self.now }
        ensures is_key { IsKey self.now }
    {
        &self.parts
    }

    /// An equal key.
    pub fn copy(&self, alloc: Global) -> Result<Key, OutOfMemory>
        ensures { IfOk result (λ k. k ≡ self.now) }
    {
        Ok(Key {
            parts: self.parts.copy(alloc)?,
            id: self.id.copy(alloc)?,
        })
    }

    /// Whether both are one key.
    pub fn same(&self, other: &Key) -> bool
        ensures { IsTrue result ↔ (self.now ≡ other.now) }
    {
        self.parts.same(&other.parts)
    }

    /// Whether the other is right below this one, with one type and one name segment more.
    pub fn is_parent(&self, child: &Key) -> bool
        ensures { IsTrue result ↔ IsParent self.now child.now }
    {
        self.parts.begins(&child.parts) && child.parts.names.len() - self.parts.names.len() == 1
    }
}

impl ResourceId {
    ghost use Rattle.arm_ids.specs.Id.{folded, IsResourceId};

    /// The key that the id names.
    pub fn key(&self, alloc: Global) -> Result<Key, OutOfMemory>
        requires { IsResourceId self.now }
        ensures { IfOk result (λ k. k ≡ folded self.now) }
    {
        let id = self.folded_text(alloc)?;
        Ok(Key {
            parts: self.folded(alloc)?,
            id,
        })
    }
}
