// The type and the name that an id spells.

ghost use Rattle.std.specs.Prelude.{◌≡◌, [], Some, chars, IfOk};
ghost use Rattle.std.specs.List.{list_all};
ghost use Rattle.arm_value.specs.Look.{is_same_folded};
ghost use Rattle.provider_trait.specs.Plain.{full_type, full_name, is_storage, types_joined, names_joined};
ghost use Rattle.provider_trait.specs.Catalog.{needs_location, is_account_name, is_account_character};

use crate::parts::{letting_go, run_out};
use arm_ids::{IdFault, ResourceId};
use arm_value::{OutOfMemory, Text, folded_eq};
use std::alloc::{AllocError, Global};

/// The full type and the full name that an id spells, both empty where the text is no id.
#[derive(Drop)]
pub(crate) struct Named {
    /// The full type, as `Microsoft.Storage/storageAccounts`.
    pub(crate) kind: Text,
    /// The full name, with a slash between each two names.
    pub(crate) name: Text,
}

impl Named {
    /// The type and the name of this id.
    pub(crate) fn of(alloc: Global, id: &Text) -> Result<Named, OutOfMemory>
        ensures kind { IfOk result (λ n. n.kind ≡ full_type id.now) }
        ensures name { IfOk result (λ n. n.name ≡ full_name id.now) }
    {
        match ResourceId::read(alloc, id.as_str()) {
            Ok(id) => letting_go(named_by(alloc, &id), id),
            Err(IdFault::OutOfMemory) => Err(AllocError),
            Err(IdFault::NotAnId) => nameless(alloc),
            Err(IdFault::EmptySegment) => unreachable!(),
            Err(IdFault::SegmentsDiffer) => unreachable!(),
        }
    }

    /// Whether the type is that of storage accounts.
    pub(crate) fn is_storage(&self) -> bool
        ensures { result ≡ is_storage self.now.kind }
    {
        is_kind(&self.kind, "Microsoft.Storage/storageAccounts")
    }

    /// Whether resources of this type have a location.
    pub(crate) fn needs_location(&self) -> bool
        ensures { result ≡ needs_location self.now.kind }
    {
        if self.is_storage() {
            return true;
        }
        if is_kind(&self.kind, "Microsoft.Network/virtualNetworks") {
            return true;
        }
        if is_kind(&self.kind, "Microsoft.Web/serverFarms") {
            return true;
        }
        is_kind(&self.kind, "Microsoft.Web/sites")
    }

    /// Whether a storage account may have the name: 3 to 24 small letters and digits.
    pub(crate) fn is_account_name(&self) -> bool
        ensures { result ≡ is_account_name self.now.name }
    {
        let bytes = self.name.as_str().as_bytes();
        if bytes.len() < 3 {
            return false;
        }
        if bytes.len() > 24 {
            return false;
        }
        are_account_characters(bytes)
    }
}

// The type and the name of an id.
fn named_by(alloc: Global, id: &ResourceId) -> Result<Named, OutOfMemory>
    ensures kind { IfOk result (λ n. n.kind ≡ types_joined (Some id.now)) }
    ensures name { IfOk result (λ n. n.name ≡ names_joined (Some id.now)) }
{
    let kind = id.full_type(alloc)?;
    match id.full_name(alloc) {
        Ok(name) => Ok(Named { kind, name }),
        Err(_) => run_out(kind),
    }
}

// An empty type and an empty name.
fn nameless(alloc: Global) -> Result<Named, OutOfMemory>
    ensures kind { IfOk result (λ n. n.kind ≡ chars []) }
    ensures name { IfOk result (λ n. n.name ≡ chars []) }
{
    let kind = Text::of(alloc, "")?;
    match Text::of(alloc, "") {
        Ok(name) => Ok(Named { kind, name }),
        Err(_) => run_out(kind),
    }
}

// Whether the type is this one, whatever the case of letters.
fn is_kind(kind: &Text, wanted: &str) -> bool
    ensures { result ≡ is_same_folded kind.now (chars wanted.now) }
{
    folded_eq(kind.as_str(), wanted)
}

fn are_account_characters(bytes: &[u8]) -> bool
    ensures { result ≡ list_all is_account_character bytes.now }
{
    for byte in bytes {
        if !is_account_character(*byte) {
            return false;
        }
    }
    true
}

fn is_account_character(byte: u8) -> bool
    ensures { result ≡ is_account_character byte }
{
    byte.is_ascii_lowercase() || byte.is_ascii_digit()
}
