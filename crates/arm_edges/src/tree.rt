// Files by their names.
ghost use Rattle.std.specs.Prelude.{◌≡◌, ℕ, ◌≤◌, Bool, true, List, Option, length, IfOk, IfSome};
ghost use Rattle.arm_edges.specs.Files.{AnswersFile, FileCause};

use crate::TreeFault;
use arm_value::Bytes;
use std::alloc::Global;

/// Files by their names.
pub trait Tree {
    /// Whether trees of this kind report what they hold.
    ghost tells_files: { Bool };

    /// The bytes of the file of that name, where there is one. A name is its bytes in UTF-8.
    ghost file: { Self → List ℕ → Option (List ℕ) };

    /// How often a call has failed.
    ghost faults: { Self → ℕ };

    /// The file of that name, or none where there is no such file. A file above 4,194,304 bytes is too large.
    fn read_file(&mut self, alloc: Global, name: &str) -> Result<Option<Bytes>, TreeFault>
        ensures answers { tells_files ≡ true → AnswersFile (file self.old name.now) result }
        ensures size { IfOk result (λ o. IfSome o (λ bytes. length bytes ≤ 4194304)) }
        ensures stays { file self.new ≡ file self.old }
        ensures cause { FileCause (faults self.old) (faults self.new) result };
}
