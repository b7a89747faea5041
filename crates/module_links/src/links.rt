// The numbers of the files that paths in a file name.
ghost use Rattle.std.specs.Prelude.{◌≡◌, ℕ, List, ◌<◌, ◌≤◌, ◌∷◌, ◌++◌, [], map, length};
ghost use Rattle.std.specs.Prelude.{slice_get, MatchOption, Some, None, IfOk, IfErr, IfSome, IfNone, OnOk};
ghost use Rattle.module_links.specs.Paths.{file_at};
ghost use Rattle.module_links.specs.Links.{entry_names, IsNew, AreLinked, Adds, IsUnlinked};
ghost use Rattle.module_links.specs.Linking.{LinksTo};
ghost use Rattle.module_links.specs.declared.links.LinkFault.TheVariants.{OutOfMemory};

use crate::entry::Entry;
use crate::paths::file_at;
use arm_value::{OutOfMemory, Text};
use std::alloc::Global;

/// How many files a program has at most: the main file and 64 others.
pub const MAX_PROGRAM_FILES: usize = 65;

/// Why paths are not linked.
#[derive(Debug, Drop)]
pub enum LinkFault {
    /// The path names no file.
    Nowhere(Text),
    /// Out of memory.
    OutOfMemory,
}

// The number of the file of that name, where it was named before.
fn number_of(entries: &[Entry], name: &Text) -> Option<usize>
    ensures { MatchOption result (IsNew (entry_names entries.now) name.now)
        (λ k. (k < length entries.now) × (slice_get (entry_names entries.now) k ≡ Some name.now)) }
{
    for (k, entry) in entries.iter().enumerate() {
        if entry.name.same(name) {
            return Some(k);
        }
    }
    None
}

// Adds a file that was named by a path in a file.
fn add(
    alloc: Global,
    file: &Text,
    path: &Text,
    name: Text,
    entries: &mut Vec<Entry>,
) -> Result<(), OutOfMemory>
    ensures { OnOk result (entries.new.items
        ≡ entries.old.items ++ (record { name = name; by = file.now; path = path.now }) ∷ []) }
{
    let entry = Entry {
        name,
        by: file.copy(alloc)?,
        path: path.copy(alloc)?,
    };
    entries.push(entry)?;
    Ok(())
}

// The number of the file of that name, which a path in a file names and which was not named before. It has no number
// where it is one too many.
fn new_number(
    alloc: Global,
    file: &Text,
    path: &Text,
    name: Text,
    entries: &mut Vec<Entry>,
) -> Result<Option<u32>, LinkFault>
    requires few { length entries.old.items ≤ 65 }
    requires found { file_at file.now path.now ≡ Some name }
    requires fresh { IsNew (entry_names entries.old.items) name }
    ensures linked { IfOk result (λ o. IfSome o (LinksTo (entry_names entries.new.items) file.now path.now)) }
    ensures few { IfOk result (λ o. IfSome o (λ _. length entries.new.items ≤ 65)) }
    ensures full { IfOk result (λ o. IfNone o (length entries.new.items ≡ 66)) }
    ensures adds { OnOk result (Adds file.now (path.now ∷ []) entries.old.items entries.new.items) }
    ensures err { IfErr result (λ f. f ≡ OutOfMemory) }
{
    let number = entries.len();
    match add(alloc, file, path, name, entries) {
        Ok(()) => Ok(if number < MAX_PROGRAM_FILES {
            Some(number as u32)
        } else {
            None
        }),
        Err(_) => Err(LinkFault::OutOfMemory),
    }
}

// The number of the file of that name, which a path in a file names.
#[tactic(auto, using(crate::proofs::StepLemmas::adds_none))]
fn number_in(
    alloc: Global,
    file: &Text,
    path: &Text,
    name: Text,
    entries: &mut Vec<Entry>,
) -> Result<Option<u32>, LinkFault>
    requires few { length entries.old.items ≤ 65 }
    requires found { file_at file.now path.now ≡ Some name }
    ensures linked { IfOk result (λ o. IfSome o (LinksTo (entry_names entries.new.items) file.now path.now)) }
    ensures few { IfOk result (λ o. IfSome o (λ _. length entries.new.items ≤ 65)) }
    ensures full { IfOk result (λ o. IfNone o (length entries.new.items ≡ 66)) }
    ensures adds { OnOk result (Adds file.now (path.now ∷ []) entries.old.items entries.new.items) }
    ensures err { IfErr result (λ f. f ≡ OutOfMemory) }
{
    match number_of(entries.as_slice(), &name) {
        Some(number) => Ok(Some(number as u32)),
        None => new_number(alloc, file, path, name, entries),
    }
}

// That a path names no file.
fn nowhere(alloc: Global, path: &Text) -> LinkFault
    ensures { (file : List ℕ) → file_at file path.now ≡ None → IsUnlinked file (path.now ∷ []) result }
{
    match path.copy(alloc) {
        Ok(path) => LinkFault::Nowhere(path),
        Err(_) => LinkFault::OutOfMemory,
    }
}

// The number of the file that a path in a file names.
fn link_path(
    alloc: Global,
    file: &Text,
    path: &Text,
    entries: &mut Vec<Entry>,
) -> Result<Option<u32>, LinkFault>
    requires { length entries.old.items ≤ 65 }
    ensures linked { IfOk result (λ o. IfSome o (LinksTo (entry_names entries.new.items) file.now path.now)) }
    ensures few { IfOk result (λ o. IfSome o (λ _. length entries.new.items ≤ 65)) }
    ensures full { IfOk result (λ o. IfNone o (length entries.new.items ≡ 66)) }
    ensures adds { OnOk result (Adds file.now (path.now ∷ []) entries.old.items entries.new.items) }
    ensures unlinked { IfErr result (IsUnlinked file.now (path.now ∷ [])) }
{
    match file_at(alloc, file.as_str(), path.as_str()) {
        Ok(Some(name)) => number_in(alloc, file, path, name, entries),
        Ok(None) => Err(nowhere(alloc, path)),
        Err(_) => Err(LinkFault::OutOfMemory),
    }
}

/// The numbers of the files that these paths name in a file, in order. A file that was not named before is added to the
/// entries. There are no numbers where the entries become 66.
///
/// # Errors
///
/// `Nowhere` has a path that names no file in the folder of all files. `OutOfMemory`.
pub fn link(
    alloc: Global,
    file: &Text,
    paths: &[&Text],
    entries: &mut Vec<Entry>,
) -> Result<Option<Vec<u32>>, LinkFault>
    requires { length entries.old.items ≤ 65 }
    ensures linked { IfOk result (λ o. IfSome o (λ numbers.
        AreLinked (entry_names entries.new.items) file.now (map (λ p. p.now) paths.now) numbers.items)) }
    ensures few { IfOk result (λ o. IfSome o (λ _. length entries.new.items ≤ 65)) }
    ensures full { IfOk result (λ o. IfNone o (length entries.new.items ≡ 66)) }
    ensures adds { OnOk result (Adds file.now (map (λ p. p.now) paths.now) entries.old.items entries.new.items) }
    ensures unlinked { IfErr result (IsUnlinked file.now (map (λ p. p.now) paths.now)) }
{
    let mut numbers = Vec::new(alloc);
    for path in paths {
        match link_path(alloc, file, path, entries) {
            Ok(Some(number)) => match numbers.push(number) {
                Ok(()) => {}
                Err(_) => return Err(LinkFault::OutOfMemory),
            },
            Ok(None) => return Ok(None),
            Err(fault) => return Err(fault),
        }
    }
    Ok(Some(numbers))
}
