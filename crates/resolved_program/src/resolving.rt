// Files whose names are found.
ghost use Rattle.std.specs.Prelude.{◌≡◌, map, IfOk, IfErr, OnOk, None};
ghost use Rattle.bicep_found.specs.Found.{Found, Gives, found, mapped};
ghost use Rattle.bicep_program.specs.Program.{program_file};
ghost use Rattle.bicep_symbols.specs.Entries.{symbol_of};
ghost use Rattle.bicep_declared.specs.Declarations.{DeclaredFileTree};
ghost use Rattle.bicep_declared.specs.View.{file_tree};
ghost use Rattle.resolved_program.specs.Programs.{with_names, output_texts, resolved_named, IsResolved};
ghost use Rattle.resolved_program.specs.Faults.{first_in, twice_of, unknown_at, IsFirst, IsUnknownIn};
ghost use Rattle.resolved_program.specs.View.{file_view, files_view, named_view};

use crate::fault::ResolveFault;
use crate::named::{AllNames, Named, all_names, refuse};
use crate::outputs::output_texts;
use crate::resolved::{ResolvedFile, ResolvedProgram};
use bicep_declared::{DeclaredFile, declare_file};
use bicep_found::Stop;
use bicep_found::join::{lacks, push};
use bicep_names::Outputs;
use bicep_program::SourceFile;
use std::alloc::Global;

// A file with these declarations.
fn with_declared(
    alloc: Global,
    named: Named<'_>,
    declared: DeclaredFile,
) -> Result<ResolvedFile, Stop>
    ensures { Gives file_view result (found (with_names (map symbol_of named.entry.entries.items)
        (output_texts (program_file named.entry.file.now)) (file_tree declared))) }
{
    match output_texts(alloc, named.file.file.as_slice()) {
        Ok(outputs) => Ok(ResolvedFile {
            entries: named.entries,
            outputs,
            declared,
        }),
        Err(_) => lacks((named, declared), Stop::OutOfMemory),
    }
}

// A file whose declarations these are.
fn resolved_by(
    alloc: Global,
    named: Named<'_>,
    declared: Result<DeclaredFile, Stop>,
) -> Result<ResolvedFile, Stop>
    ensures { (f : Found DeclaredFileTree) → Gives file_tree declared f
        → Gives file_view result (mapped (with_names (map symbol_of named.entry.entries.items)
        (output_texts (program_file named.entry.file.now))) f) }
{
    match declared {
        Ok(declared) => with_declared(alloc, named, declared),
        Err(stop) => lacks(named, stop),
    }
}

// What a file stands for.
fn resolve_named(alloc: Global, outputs: &[Outputs], named: Named<'_>) -> Result<ResolvedFile, Stop>
    ensures { Gives file_view result (resolved_named outputs.now (named_view named.entry)) }
{
    let file = named.file;
    let statements = file.file.as_slice();
    let declared = declare_file(alloc, &named.symbols, outputs, statements);
    resolved_by(alloc, named, declared)
}

// The fault of a name in the file of that number.
fn fault_in(number: usize, stop: Stop) -> ResolveFault
    ensures { result ≡ unknown_at number stop }
{
    match stop {
        Stop::Unknown(at) => ResolveFault::Unknown(number, at),
        Stop::OutOfMemory => ResolveFault::OutOfMemory,
    }
}

// What files stand for, or the first name in them that means nothing.
fn resolve_all(
    alloc: Global,
    outputs: &[Outputs],
    named: Vec<Named<'_>>,
) -> Result<Vec<ResolvedFile>, ResolveFault>
    ensures resolved { IfOk result (λ v. map (resolved_named outputs.now) (map named_view named.entry.items)
        ≡ map (λ r. found r) (map file_view v.items)) }
    ensures fault { IfErr result (IsUnknownIn outputs.now (map named_view named.entry.items)) }
{
    let mut resolved = Vec::new(alloc);
    for file in named {
        let number = resolved.len();
        let part = resolve_named(alloc, outputs, file);
        match push(&mut resolved, part) {
            Ok(()) => {}
            Err(stop) => return refuse(resolved, fault_in(number, stop)),
        }
    }
    Ok(resolved)
}

/// What the files of a program stand for. The numbers of the files of modules are those of these files.
///
/// # Errors
///
/// Of each kind the first in the order of the files, and `Unknown` only where there is no `Twice`.
/// - `Twice`: a name is given twice (`bicep_symbols`).
/// - `Unknown`: a name means nothing.
/// - `OutOfMemory`.
pub fn resolve_names(alloc: Global, files: &[SourceFile]) -> Result<ResolvedProgram, ResolveFault>
    ensures resolved { IfOk result (λ p. IsResolved (map program_file files.now) (files_view p)) }
    ensures once { OnOk result (first_in twice_of (map program_file files.now) ≡ None) }
    ensures fault { IfErr result (IsFirst (map program_file files.now)) }
{
    let AllNames { named, outputs } = match all_names(alloc, files) {
        Ok(all) => all,
        Err(fault) => return Err(fault),
    };
    match resolve_all(alloc, outputs.as_slice(), named) {
        Ok(files) => Ok(ResolvedProgram { files }),
        Err(fault) => Err(fault),
    }
}
