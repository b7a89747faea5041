// The symbols of a file.
ghost use Rattle.std.specs.Prelude.{◌≡◌, ◌∷◌, ◌++◌, [], None, map, option_map, encode_utf8_all, string_bytes, is_ok};
ghost use Rattle.std.specs.Prelude.{if◌then◌else◌};
ghost use Rattle.bicep_names.specs.Scope.{symbol_from, nested_named, seen};

use crate::kind::{Kind, nested_by};
use arm_value::{OutOfMemory, Text};
use bicep_resolved::Target;
use indexmap::IndexMap;
use std::alloc::{AllocError, Global};
use std::marker::Model;

/// The symbols of a file in source order. Contracts see the list of the bytes of their names, with their kinds.
#[derive(Drop)]
pub struct Symbols {
    named: IndexMap<String, Kind>,
}

impl Model for Symbols {
    ghost use Rattle.std.specs.Prelude.{ℕ, List, map};
    ghost use Rattle.bicep_names.specs.declared.kind.Kind.{Kind};
    ghost use Rattle.bicep_names.specs.Scope.{seen};

    ghost Value = { List (List ℕ × Kind) };

    ghost view = { λ s. map seen s.named.entries };
}

// Puts a symbol of another name last.
fn insert(named: &mut IndexMap<String, Kind>, key: String, kind: Kind) -> Result<(), OutOfMemory>
    requires { symbol_from 0 (string_bytes key) (map seen named.old.entries) ≡ None }
    ensures { map seen named.new.entries ≡ (if is_ok result
        then map seen named.old.entries ++ (string_bytes key, kind) ∷ [] else map seen named.old.entries) }
{
    match named.insert(key, kind) {
        Ok(_) => Ok(()),
        Err(_) => Err(AllocError),
    }
}

impl Symbols {
    /// No symbols. It takes no memory.
    pub fn new(alloc: Global) -> Symbols
        ensures { result ≡ [] }
    {
        Symbols {
            named: IndexMap::new(alloc),
        }
    }

    /// The symbol of that name, letter by letter: its number and its kind.
    pub fn find(&self, name: &Text) -> Option<(usize, Kind)>
        ensures { result ≡ symbol_from 0 (encode_utf8_all name.now) self.now }
    {
        match self.named.get_full(name.as_str()) {
            Some((number, _, kind)) => Some((number, *kind)),
            None => None,
        }
    }

    /// The resource of that name that is nested in the one of the number `around`.
    #[tactic(auto, unfolding(crate::specs::Scope::nested_named))]
    pub fn nested(&self, around: usize, name: &Text) -> Option<Target>
        ensures { result ≡ nested_named self.now around name.now }
    {
        match self.find(name) {
            Some((number, kind)) => nested_by(around, number, kind),
            None => None,
        }
    }

    /// Adds a symbol of another name.
    pub fn add(&mut self, alloc: Global, name: &Text, kind: Kind) -> Result<(), OutOfMemory>
        requires { symbol_from 0 (encode_utf8_all name.now) self.old ≡ None }
        ensures { self.new ≡ (if is_ok result then self.old ++ (encode_utf8_all name.now, kind) ∷ [] else self.old) }
    {
        let key = String::from_str(alloc, name.as_str())?;
        insert(&mut self.named, key, kind)
    }
}
