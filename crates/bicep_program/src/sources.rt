// One file of a program: read from a tree, and parsed.
ghost use Rattle.std.specs.Prelude.{◌≡◌, IfOk, IfErr, IfSome, IfNone, OnOk};
ghost use Rattle.bicep_tree.specs.View.{file_of};
ghost use Rattle.bicep_program.specs.Sources.{IsReadAs, IsSourceOf, Lacks, folder_of};
ghost use Rattle.bicep_program.specs.Unread.{IsHeld, IsNoSource, IsNotRead, Counts, lex_fault, parse_fault};

use arm_edges::{Tree, TreeFault};
use arm_value::{Bytes, Text};
use bicep_lexer::{LexFault, tokens};
use bicep_parser::{File, ParseFault, parse};
use std::alloc::Global;

/// Why a file is not read.
#[derive(Clone, Copy)]
pub(crate) enum FileFault {
    /// The tree could not read it.
    ReadFault,
    /// It has more than 4,194,304 bytes.
    TooLarge,
    /// It is not in UTF-8.
    NotText,
    /// The lexer refused it.
    Lex(LexFault),
    /// The parser refused it.
    Parse(ParseFault),
    /// Out of memory.
    OutOfMemory,
}

// The fault of a text that the lexer refuses.
fn lex_fault(fault: LexFault) -> FileFault
    ensures { result ≡ lex_fault fault }
{
    match fault {
        LexFault::OutOfMemory => FileFault::OutOfMemory,
        _ => FileFault::Lex(fault),
    }
}

// The fault of a text whose tokens the parser refuses.
fn parse_fault(fault: ParseFault) -> FileFault
    ensures { result ≡ parse_fault fault }
{
    match fault {
        ParseFault::OutOfMemory => FileFault::OutOfMemory,
        _ => FileFault::Parse(fault),
    }
}

// The file of which the bytes are a source.
fn parsed(alloc: Global, bytes: &Bytes) -> Result<File, FileFault>
    ensures parsed { IfOk result (λ f. IsSourceOf bytes.now (file_of f.items)) }
    ensures refused { IfErr result (IsNoSource bytes.now) }
{
    let source = match str::from_utf8(bytes.as_slice()) {
        Ok(source) => source,
        Err(_) => return Err(FileFault::NotText),
    };
    let found = match tokens(alloc, source) {
        Ok(found) => found,
        Err(fault) => return Err(lex_fault(fault)),
    };
    match parse(alloc, found.as_slice()) {
        Ok(file) => Ok(file),
        Err(fault) => Err(parse_fault(fault)),
    }
}

/// The bytes of the file of that name, where there is one.
pub(crate) fn bytes_of<T: Tree>(
    alloc: Global,
    tree: &mut T,
    name: &Text,
) -> Result<Option<Bytes>, FileFault>
    ensures read { IfOk result (λ o. IfSome o (IsHeld (folder_of T.tells_files (T.file tree.old)) name.now)) }
    ensures missing { IfOk result (λ o. IfNone o (Lacks (folder_of T.tells_files (T.file tree.old)) name.now)) }
    ensures not_read { IfErr result (IsNotRead (folder_of T.tells_files (T.file tree.old)) name.now) }
    ensures count { IfErr result (Counts (T.faults tree.old) (T.faults tree.new)) }
    ensures uncounted { OnOk result (T.faults tree.new ≡ T.faults tree.old) }
    ensures stays { T.file tree.new ≡ T.file tree.old }
{
    match tree.read_file(alloc, name.as_str()) {
        Ok(bytes) => Ok(bytes),
        Err(TreeFault::TooLarge) => Err(FileFault::TooLarge),
        Err(TreeFault::Fault) => Err(FileFault::ReadFault),
        Err(TreeFault::OutOfMemory) => Err(FileFault::OutOfMemory),
    }
}

/// The file of that name, where there is one.
pub(crate) fn read<T: Tree>(
    alloc: Global,
    tree: &mut T,
    name: &Text,
) -> Result<Option<File>, FileFault>
    ensures read { IfOk result (λ o. IfSome o (λ f.
        IsReadAs (folder_of T.tells_files (T.file tree.old)) name.now (file_of f.items))) }
    ensures missing { IfOk result (λ o. IfNone o (Lacks (folder_of T.tells_files (T.file tree.old)) name.now)) }
    ensures not_read { IfErr result (IsNotRead (folder_of T.tells_files (T.file tree.old)) name.now) }
    ensures count { IfErr result (Counts (T.faults tree.old) (T.faults tree.new)) }
    ensures uncounted { OnOk result (T.faults tree.new ≡ T.faults tree.old) }
    ensures stays { T.file tree.new ≡ T.file tree.old }
{
    let bytes = match bytes_of(alloc, tree, name) {
        Ok(Some(bytes)) => bytes,
        Ok(None) => return Ok(None),
        Err(fault) => return Err(fault),
    };
    match parsed(alloc, &bytes) {
        Ok(file) => Ok(Some(file)),
        Err(fault) => Err(fault),
    }
}
