// From a folder and the name of a main file to the files of its program.
ghost use Rattle.std.specs.Prelude.{◌≡◌, ◌<◌, ◌≤◌, ◌+◌, ◌++◌, ◌∷◌, [], ℕ, List, Err, length, map, chars, IfOk, IfErr};
ghost use Rattle.std.specs.Prelude.{IfSome, IfNone, OnOk, Some, option_to_list, slice_get, drop};
ghost use Rattle.std.specs.Option.{option_copied};
ghost use Rattle.std.specs.List.{AllByRecursion};
ghost use Rattle.bicep_tree.specs.View.{file_of, statement_of};
ghost use Rattle.module_links.specs.Links.{entry_names, AreLinked, Adds};
ghost use Rattle.bicep_program.specs.Sources.{Folder, IsReadAs, Has, folder_of};
ghost use Rattle.bicep_program.specs.Unread.{IsNotRead, Counts};
ghost use Rattle.bicep_program.specs.Program.{module_path, module_paths, IsReached, program_file};
ghost use Rattle.bicep_program.specs.Refused.{HasFault, TreeCounts};
ghost use Rattle.bicep_program.specs.Loading.{IsNoted, IsMissingAt, HasCome};

use crate::fault::LoadFault;
use crate::file::SourceFile;
use crate::sources::{FileFault, bytes_of, read};
use arm_edges::Tree;
use arm_value::Text;
use bicep_tree::{Declaration, File, Statement};
use module_links::{Entry, LinkFault, file_at, link};
use std::alloc::Global;

/// Why nothing is loaded; drops the part.
pub(crate) fn refuse<T: Drop, R>(fault: LoadFault, _part: T) -> Result<R, LoadFault>
    ensures { result ≡ Err fault }
{
    Err(fault)
}

// The path of a module.
#[tactic(auto, using(bicep_tree::proofs::ViewLemmas::structs))]
fn module_path(statement: &Statement) -> Option<&Text>
    ensures { option_copied result ≡ module_path (statement_of statement.now) }
{
    match &statement.declaration {
        Declaration::Module(_, _, path, _) => Some(&path.text),
        Declaration::Metadata(_, _, _)
        | Declaration::TargetScope(_, _)
        | Declaration::Param(_, _, _)
        | Declaration::ParamWith(_, _, _, _)
        | Declaration::Var(_, _, _)
        | Declaration::Output(_, _, _, _)
        | Declaration::Resource(_) => None,
    }
}

// Adds the path of a module.
fn push_path<'a>(paths: &mut Vec<&'a Text>, statement: &'a Statement) -> Result<(), LoadFault>
    ensures added { OnOk result (map (λ p. p.now) paths.new.items
        ≡ map (λ p. p.now) paths.old.items ++ option_to_list (module_path (statement_of statement.now))) }
    ensures err { IfErr result (λ f. f ≡ LoadFault.OutOfMemory) }
{
    match module_path(statement) {
        None => Ok(()),
        Some(path) => match paths.push(path) {
            Ok(()) => Ok(()),
            Err(_) => Err(LoadFault::OutOfMemory),
        },
    }
}

// The paths of a file's modules in order.
fn module_paths(alloc: Global, statements: &[Statement]) -> Result<Vec<&Text>, LoadFault>
    ensures paths { IfOk result (λ ps. map (λ p. p.now) ps.items ≡ module_paths (file_of statements.now)) }
    ensures err { IfErr result (λ f. f ≡ LoadFault.OutOfMemory) }
{
    let mut paths = Vec::new(alloc);
    for statement in statements {
        match push_path(&mut paths, statement) {
            Ok(()) => {}
            Err(fault) => return Err(fault),
        }
    }
    Ok(paths)
}

// That a path in a file leads nowhere.
fn missing(alloc: Global, file: &Text, path: &Text) -> LoadFault
    ensures { IsMissingAt file.now path.now result }
{
    match file.copy(alloc) {
        Ok(file) => match path.copy(alloc) {
            Ok(path) => LoadFault::ModuleMissing(file, path),
            Err(_) => LoadFault::OutOfMemory,
        },
        Err(_) => LoadFault::OutOfMemory,
    }
}

// The fault of a file that is not read.
fn fault_of(alloc: Global, name: &Text, fault: FileFault) -> LoadFault
    ensures fault { (folder : Folder) (main : List ℕ) → IsReached folder main name.now
        → IsNotRead folder name.now fault → HasFault folder main result }
    ensures count { (before now : ℕ) → Counts before now fault → TreeCounts before now result }
{
    let name = match name.copy(alloc) {
        Ok(name) => name,
        Err(_) => return unnamed(fault),
    };
    match fault {
        FileFault::ReadFault => LoadFault::ReadFault,
        FileFault::TooLarge => LoadFault::TooLarge(name),
        FileFault::NotText => LoadFault::NotText(name),
        FileFault::Lex(fault) => LoadFault::Lex(name, fault),
        FileFault::Parse(fault) => LoadFault::Parse(name, fault),
        FileFault::OutOfMemory => LoadFault::OutOfMemory,
    }
}

// The fault of a file that is not read, where memory is refused for its name.
fn unnamed(fault: FileFault) -> LoadFault
    ensures fault { (folder : Folder) (main : List ℕ) → HasFault folder main result }
    ensures count { (before now : ℕ) → Counts before now fault → TreeCounts before now result }
{
    match fault {
        FileFault::ReadFault => LoadFault::ReadFault,
        _ => LoadFault::OutOfMemory,
    }
}

// The file of an entry.
fn read_entry<T: Tree>(alloc: Global, tree: &mut T, entry: &Entry) -> Result<File, LoadFault>
    ensures read { IfOk result (λ f.
        IsReadAs (folder_of T.tells_files (T.file tree.old)) entry.now.name (file_of f.items)) }
    ensures fault { IfErr result (λ f. (main : List ℕ)
        → IsNoted (folder_of T.tells_files (T.file tree.old)) main entry.now
        → HasFault (folder_of T.tells_files (T.file tree.old)) main f) }
    ensures count { IfErr result (TreeCounts (T.faults tree.old) (T.faults tree.new)) }
    ensures uncounted { OnOk result (T.faults tree.new ≡ T.faults tree.old) }
    ensures stays { T.file tree.new ≡ T.file tree.old }
{
    match read(alloc, tree, &entry.name) {
        Ok(Some(file)) => Ok(file),
        Ok(None) => Err(missing(alloc, &entry.by, &entry.path)),
        Err(fault) => Err(fault_of(alloc, &entry.name, fault)),
    }
}

// Whether there is a file of an entry.
fn is_there<T: Tree>(alloc: Global, tree: &mut T, entry: &Entry) -> Result<(), LoadFault>
    ensures there { OnOk result (Has (folder_of T.tells_files (T.file tree.old)) entry.now.name) }
    ensures fault { IfErr result (λ f. (main : List ℕ)
        → IsNoted (folder_of T.tells_files (T.file tree.old)) main entry.now
        → HasFault (folder_of T.tells_files (T.file tree.old)) main f) }
    ensures count { IfErr result (TreeCounts (T.faults tree.old) (T.faults tree.new)) }
    ensures uncounted { OnOk result (T.faults tree.new ≡ T.faults tree.old) }
    ensures stays { T.file tree.new ≡ T.file tree.old }
{
    match bytes_of(alloc, tree, &entry.name) {
        Ok(Some(_)) => Ok(()),
        Ok(None) => Err(missing(alloc, &entry.by, &entry.path)),
        Err(fault) => Err(fault_of(alloc, &entry.name, fault)),
    }
}

// Why no program has all of these files: one of the last is missing, or there are too many.
fn too_many<T: Tree>(alloc: Global, tree: &mut T, last: &[Entry]) -> LoadFault
    ensures fault { (main : List ℕ)
        → AllByRecursion (IsNoted (folder_of T.tells_files (T.file tree.old)) main) last.now
        → (AllByRecursion (Has (folder_of T.tells_files (T.file tree.old))) (entry_names last.now)
        → HasFault (folder_of T.tells_files (T.file tree.old)) main LoadFault.TooManyFiles)
        → HasFault (folder_of T.tells_files (T.file tree.old)) main result }
    ensures count { TreeCounts (T.faults tree.old) (T.faults tree.new) result }
    ensures stays { T.file tree.new ≡ T.file tree.old }
{
    for entry in last {
        match is_there(alloc, tree, entry) {
            Ok(()) => {}
            Err(fault) => return fault,
        }
    }
    LoadFault::TooManyFiles
}

// The entry of the main file.
pub(crate) fn begun(alloc: Global, main: &str) -> Result<Vec<Entry>, LoadFault>
    ensures come { IfOk result (λ entries. (folder : Folder) → HasCome folder (chars main.now) entries.items []) }
    ensures one { IfOk result (λ entries. length entries.items ≡ 1) }
    ensures fault { IfErr result (λ f. (folder : Folder) → HasFault folder (chars main.now) f) }
    ensures count { IfErr result (λ f. (count : ℕ) → TreeCounts count count f) }
{
    let given = match Text::of(alloc, main) {
        Ok(given) => given,
        Err(_) => return Err(LoadFault::OutOfMemory),
    };
    match file_at(alloc, "", main) {
        Ok(Some(name)) => first_entry(alloc, given, name),
        Ok(None) => Err(missing(alloc, &given, &given)),
        Err(_) => Err(LoadFault::OutOfMemory),
    }
}

// The entry of the main file of that name, which was given as a text.
fn first_entry(alloc: Global, given: Text, name: Text) -> Result<Vec<Entry>, LoadFault>
    ensures entry { IfOk result (λ entries. entries.items
        ≡ (record { name = name; by = given; path = given }) ∷ []) }
    ensures err { IfErr result (λ f. f ≡ LoadFault.OutOfMemory) }
{
    let path = match given.copy(alloc) {
        Ok(path) => path,
        Err(_) => return Err(LoadFault::OutOfMemory),
    };
    let mut entries = Vec::new(alloc);
    match entries.push(Entry {
        name,
        by: given,
        path,
    }) {
        Ok(()) => Ok(entries),
        Err(_) => Err(LoadFault::OutOfMemory),
    }
}

// Adds a file with its name, and the numbers of the files that its modules name.
fn push_file(
    files: &mut Vec<SourceFile>,
    read: (Text, File),
    modules: Vec<u32>,
) -> Result<(), LoadFault>
    ensures added { OnOk result (map program_file files.new.items ≡ map program_file files.old.items
        ++ (record { name = read.0; tree = file_of read.1.items; modules = modules.items }) ∷ []) }
    ensures size { OnOk result (length files.new.items ≡ length files.old.items + 1) }
    ensures err { IfErr result (λ f. f ≡ LoadFault.OutOfMemory) }
{
    let (name, file) = read;
    match files.push(SourceFile {
        name,
        file,
        modules,
    }) {
        Ok(()) => Ok(()),
        Err(_) => Err(LoadFault::OutOfMemory),
    }
}

// The numbers of the files that the modules of a file name. There are none where the entries become 66.
fn link_file(
    alloc: Global,
    name: &Text,
    statements: &[Statement],
    entries: &mut Vec<Entry>,
) -> Result<Option<Vec<u32>>, LoadFault>
    requires { length entries.old.items ≤ 65 }
    ensures linked { IfOk result (λ o. IfSome o (λ numbers. AreLinked (entry_names entries.new.items) name.now
        (module_paths (file_of statements.now)) numbers.items)) }
    ensures few { IfOk result (λ o. IfSome o (λ _. length entries.new.items ≤ 65)) }
    ensures full { IfOk result (λ o. IfNone o (length entries.new.items ≡ 66)) }
    ensures adds { OnOk result (Adds name.now (module_paths (file_of statements.now)) entries.old.items
        entries.new.items) }
    ensures fault { IfErr result (λ f. (folder : Folder) (main : List ℕ) → IsReached folder main name.now
        → IsReadAs folder name.now (file_of statements.now) → HasFault folder main f) }
    ensures count { IfErr result (λ f. (count : ℕ) → TreeCounts count count f) }
{
    let paths = match module_paths(alloc, statements) {
        Ok(paths) => paths,
        Err(fault) => return Err(fault),
    };
    match link(alloc, name, paths.as_slice(), entries) {
        Ok(numbers) => Ok(numbers),
        Err(LinkFault::Nowhere(path)) => Err(missing(alloc, name, &path)),
        Err(LinkFault::OutOfMemory) => Err(LoadFault::OutOfMemory),
    }
}

// Why no program has the files of all entries, of which those up to a number are there.
fn too_many_after<T: Tree>(
    alloc: Global,
    tree: &mut T,
    entries: &[Entry],
    number: usize,
) -> LoadFault
    requires { number < length entries.now }
    ensures fault { (main : List ℕ)
        → AllByRecursion (IsNoted (folder_of T.tells_files (T.file tree.old)) main) (drop (number + 1) entries.now)
        → (AllByRecursion (Has (folder_of T.tells_files (T.file tree.old)))
        (entry_names (drop (number + 1) entries.now))
        → HasFault (folder_of T.tells_files (T.file tree.old)) main LoadFault.TooManyFiles)
        → HasFault (folder_of T.tells_files (T.file tree.old)) main result }
    ensures count { TreeCounts (T.faults tree.old) (T.faults tree.new) result }
    ensures stays { T.file tree.new ≡ T.file tree.old }
{
    too_many(alloc, tree, &entries[number + 1..])
}

// The name and the file of the entry of that number.
fn read_next<T: Tree>(
    alloc: Global,
    tree: &mut T,
    entries: &[Entry],
    number: usize,
) -> Result<(Text, File), LoadFault>
    requires { number < length entries.now }
    ensures named { IfOk result (λ r. slice_get (entry_names entries.now) number ≡ Some r.0) }
    ensures read { IfOk result (λ r. IsReadAs (folder_of T.tells_files (T.file tree.old)) r.0 (file_of r.1.items)) }
    ensures fault { IfErr result (λ f. (main : List ℕ)
        → AllByRecursion (IsNoted (folder_of T.tells_files (T.file tree.old)) main) entries.now
        → HasFault (folder_of T.tells_files (T.file tree.old)) main f) }
    ensures count { IfErr result (TreeCounts (T.faults tree.old) (T.faults tree.new)) }
    ensures uncounted { OnOk result (T.faults tree.new ≡ T.faults tree.old) }
    ensures stays { T.file tree.new ≡ T.file tree.old }
{
    let entry = &entries[number];
    let name = match entry.name.copy(alloc) {
        Ok(name) => name,
        Err(_) => return Err(LoadFault::OutOfMemory),
    };
    match read_entry(alloc, tree, entry) {
        Ok(file) => Ok((name, file)),
        Err(fault) => refuse(fault, name),
    }
}

/// Reads the file of the next entry, and adds the files that its modules name to the entries.
pub(crate) fn load_next<T: Tree>(
    alloc: Global,
    tree: &mut T,
    entries: &mut Vec<Entry>,
    files: &mut Vec<SourceFile>,
) -> Result<(), LoadFault>
    requires next { length files.old.items < length entries.old.items }
    requires few { length entries.old.items ≤ 65 }
    ensures come { OnOk result ((main : List ℕ)
        → HasCome (folder_of T.tells_files (T.file tree.old)) main entries.old.items (map program_file files.old.items)
        → HasCome (folder_of T.tells_files (T.file tree.old)) main entries.new.items
        (map program_file files.new.items)) }
    ensures few { OnOk result (length entries.new.items ≤ 65) }
    ensures kept { OnOk result (length entries.old.items ≤ length entries.new.items) }
    ensures grown { OnOk result (length files.new.items ≡ length files.old.items + 1) }
    ensures fault { IfErr result (λ f. (main : List ℕ)
        → HasCome (folder_of T.tells_files (T.file tree.old)) main entries.old.items (map program_file files.old.items)
        → HasFault (folder_of T.tells_files (T.file tree.old)) main f) }
    ensures count { IfErr result (TreeCounts (T.faults tree.old) (T.faults tree.new)) }
    ensures uncounted { OnOk result (T.faults tree.new ≡ T.faults tree.old) }
    ensures stays { T.file tree.new ≡ T.file tree.old }
{
    let number = files.len();
    let read = match read_next(alloc, tree, entries.as_slice(), number) {
        Ok(read) => read,
        Err(fault) => return Err(fault),
    };
    match link_file(alloc, &read.0, read.1.as_slice(), entries) {
        Ok(Some(modules)) => push_file(files, read, modules),
        Ok(None) => refuse(too_many_after(alloc, tree, entries, number), read),
        Err(fault) => refuse(fault, read),
    }
}
