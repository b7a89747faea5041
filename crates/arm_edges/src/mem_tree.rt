// Files in memory.
ghost use Rattle.std.specs.Prelude.{◌≡◌, ◌≤◌, ◌↔◌, true, length, IfOk, IfSome, IsTrue, IsErrOf, if◌then◌else◌};
ghost use Rattle.std.specs.Option.{option_copied};
ghost use Rattle.arm_edges.specs.Files.{AnswersFile, FileCause, file_in};
ghost use Rattle.arm_edges.specs.Calls.{after_call, is_listed};

use crate::{Calls, Tree, TreeFault};
use arm_value::Bytes;
use foundation::limits::MAX_FILE_BYTES;
use std::alloc::Global;

/// A file in memory.
#[derive(Drop)]
pub struct MemFile {
    pub name: String,
    pub bytes: Bytes,
}

/// Files in memory. Of several of one name the first counts.
#[derive(Drop)]
pub struct MemTree {
    /// The files.
    pub files: Vec<MemFile>,
    /// How its calls go.
    pub calls: Calls,
}

impl MemTree {
    /// A tree of these files. The calls of those numbers fail.
    pub fn new(alloc: Global, files: Vec<MemFile>, fails: Vec<u64>) -> MemTree
        ensures files { result.files.items ≡ files.items }
        ensures fails { result.calls.fails.items ≡ fails.items }
        ensures made { result.calls.made ≡ 0 }
        ensures faults { result.calls.faults ≡ 0 }
    {
        MemTree {
            files,
            calls: Calls::new(Vec::new(alloc), fails),
        }
    }

    // The bytes of that file.
    fn find(&self, name: &str) -> Option<&Bytes>
        ensures { file_in self.now.files.items name.now ≡ option_copied result }
    {
        for file in &self.files {
            if file.name.as_str() == name {
                return Some(&file.bytes);
            }
        }
        None
    }
}

impl Tree for MemTree {
    ghost tells_files = { true };

    ghost file = { λ t. file_in t.files.items };

    ghost faults = { λ t. t.calls.faults };

    fn read_file(&mut self, alloc: Global, name: &str) -> Result<Option<Bytes>, TreeFault>
        ensures answers { true ≡ true → AnswersFile (file_in self.old.files.items name.now) result }
        ensures size { IfOk result (λ o. IfSome o (λ bytes. length bytes ≤ 4194304)) }
        ensures stays { file_in self.new.files.items ≡ file_in self.old.files.items }
        ensures cause { FileCause self.old.calls.faults self.new.calls.faults result }
        ensures listed { IsErrOf result TreeFault.Fault
            ↔ IsTrue (is_listed self.old.calls.fails.items self.old.calls.made) }
        ensures counted { self.new.calls ≡ after_call self.old.calls }
    {
        if self.calls.begin().is_err() {
            return Err(TreeFault::Fault);
        }
        let Some(bytes) = self.find(name) else {
            return Ok(None);
        };
        if bytes.as_slice().len() > MAX_FILE_BYTES {
            return Err(TreeFault::TooLarge);
        }
        match bytes.as_slice().to_vec(alloc) {
            Ok(copy) => Ok(Some(Bytes::from_vec(copy))),
            Err(_) => Err(TreeFault::OutOfMemory),
        }
    }
}
