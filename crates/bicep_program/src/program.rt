// From a folder and the name of a main file to its program.
ghost use Rattle.std.specs.Prelude.{◌≡◌, ◌≤◌, ℕ, List, length, map, chars, IfOk, IfErr, OnOk};
ghost use Rattle.bicep_program.specs.Circles.{IsCircle, Links};
ghost use Rattle.bicep_program.specs.Sources.{folder_of};
ghost use Rattle.bicep_program.specs.Program.{IsProgram, files_of, program_file, links_of};
ghost use Rattle.bicep_program.specs.Refused.{HasFault, TreeCounts};
ghost use Rattle.bicep_program.specs.Graphs.{AreWithin, IsCircleOf};

use crate::circles::{circle_among, circle_of};
use crate::fault::LoadFault;
use crate::file::{Program, SourceFile};
use crate::loading::{begun, load_next, refuse};
use arm_edges::Tree;
use std::alloc::Global;

// The program of files that were all read and linked.
fn program_of(alloc: Global, files: Vec<SourceFile>) -> Result<Program, LoadFault>
    requires few { length files.items ≤ 65 }
    requires within { AreWithin (length files.items) (links_of (map program_file files.items)) }
    ensures files { IfOk result (λ p. files_of p ≡ map program_file files.items) }
    ensures circle_free { OnOk result ((circle : List ℕ)
        → ¬ IsCircle (Links (links_of (map program_file files.items))) circle) }
    ensures fault { IfErr result (IsCircleOf (map program_file files.items)) }
{
    match circle_among(alloc, files.as_slice()) {
        Ok(None) => Ok(Program { files }),
        Ok(Some(circle)) => refuse(circle_of(alloc, files.as_slice(), circle.as_slice()), files),
        Err(_) => refuse(LoadFault::OutOfMemory, files),
    }
}

/// The program of the main file of that name: the file, and the files that its modules name, directly or through
/// others. Each file is read once.
///
/// A path is taken from the folder of the file in which it is written, and the name of the main file from the folder of
/// all files. It recurses neither on the number of files nor on what a file holds.
///
/// # Errors
///
/// Each of these only where it holds of the files (`specs/Refused`); where several do, any of them is returned.
/// - `ModuleMissing`: a path leads to no file, or leaves the folder.
/// - `ModuleCycle`: a file names itself through modules.
/// - `TooManyFiles`: there are more than 65 files.
/// - `TooLarge`, `NotText`, `Lex`, `Parse`: a file is no source.
/// - `ReadFault`: a file could not be read.
/// - `OutOfMemory`.
pub fn load<T: Tree>(alloc: Global, tree: &mut T, main: &str) -> Result<Program, LoadFault>
    ensures program { IfOk result (λ p.
        IsProgram (folder_of T.tells_files (T.file tree.old)) (chars main.now) (files_of p)) }
    ensures fault { IfErr result (HasFault (folder_of T.tells_files (T.file tree.old)) (chars main.now)) }
    ensures count { IfErr result (TreeCounts (T.faults tree.old) (T.faults tree.new)) }
    ensures uncounted { OnOk result (T.faults tree.new ≡ T.faults tree.old) }
    ensures stays { T.file tree.new ≡ T.file tree.old }
{
    let mut entries = match begun(alloc, main) {
        Ok(entries) => entries,
        Err(fault) => return Err(fault),
    };
    let mut files = Vec::new(alloc);
    while files.len() < entries.len() {
        match load_next(alloc, tree, &mut entries, &mut files) {
            Ok(()) => {}
            Err(fault) => return refuse(fault, (entries, files)),
        }
    }
    program_of(alloc, files)
}
