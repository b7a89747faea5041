// The outputs of a file.
ghost use Rattle.std.specs.Prelude.{◌≡◌, ◌∷◌, ◌++◌, [], None, position, bytes_eq, encode_utf8_all, is_ok};
ghost use Rattle.std.specs.Prelude.{map, string_bytes, if◌then◌else◌};
ghost use Rattle.bicep_names.specs.Scope.{output_named};

use arm_value::{OutOfMemory, Text};
use indexmap::IndexSet;
use std::alloc::{AllocError, Global};
use std::marker::Model;

/// The names of the outputs of a file in source order. Contracts see the list of their bytes.
#[derive(Drop)]
pub struct Outputs {
    names: IndexSet<String>,
}

impl Model for Outputs {
    ghost use Rattle.std.specs.Prelude.{ℕ, List, map, string_bytes};

    ghost Value = { List (List ℕ) };

    ghost view = { λ s. map string_bytes s.names.keys };
}

// Puts another name last.
fn insert(names: &mut IndexSet<String>, key: String) -> Result<(), OutOfMemory>
    requires { position (bytes_eq (string_bytes key)) (map string_bytes names.old.keys) ≡ None }
    ensures { map string_bytes names.new.keys ≡ (if is_ok result
        then map string_bytes names.old.keys ++ string_bytes key ∷ [] else map string_bytes names.old.keys) }
{
    match names.insert_full(key) {
        Ok(_) => Ok(()),
        Err(_) => Err(AllocError),
    }
}

impl Outputs {
    /// No outputs. It takes no memory.
    pub fn new(alloc: Global) -> Outputs
        ensures { result ≡ [] }
    {
        Outputs {
            names: IndexSet::new(alloc),
        }
    }

    /// The number of the output of that name, letter by letter.
    pub fn find(&self, name: &Text) -> Option<usize>
        ensures { result ≡ position (bytes_eq (encode_utf8_all name.now)) self.now }
    {
        self.names.get_index_of(name.as_str())
    }

    /// Adds an output of another name.
    pub fn add(&mut self, alloc: Global, name: &Text) -> Result<(), OutOfMemory>
        requires { position (bytes_eq (encode_utf8_all name.now)) self.old ≡ None }
        ensures { self.new ≡ (if is_ok result then self.old ++ encode_utf8_all name.now ∷ [] else self.old) }
    {
        let key = String::from_str(alloc, name.as_str())?;
        insert(&mut self.names, key)
    }
}

/// The number of the output of that name, letter by letter, among those of a file of the program.
#[tactic(auto, unfolding(crate::specs::Scope::output_named))]
pub fn output_named(outputs: &[Outputs], file: usize, name: &Text) -> Option<usize>
    ensures { result ≡ output_named outputs.now file name.now }
{
    match outputs.get(file) {
        Some(names) => names.find(name),
        None => None,
    }
}
