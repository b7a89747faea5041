// The names of the files of a program.
ghost use Rattle.std.specs.Prelude.{◌≡◌, ◌∷◌, ◌++◌, [], map, IfOk, IfErr, OnOk, None, Err};
ghost use Rattle.bicep_symbols.specs.Entries.{symbol_of};
ghost use Rattle.bicep_symbols.specs.Repeated.{IsTwice};
ghost use Rattle.bicep_program.specs.Program.{program_file};
ghost use Rattle.resolved_program.specs.Programs.{output_names, file_named, named_by};
ghost use Rattle.resolved_program.specs.Faults.{first_in, twice_of, twice_at, IsTwiceIn};
ghost use Rattle.resolved_program.specs.View.{named_view};

use crate::fault::ResolveFault;
use arm_value::OutOfMemory;
use bicep_names::{Outputs, Symbols};
use bicep_program::SourceFile;
use bicep_symbols::{Entry, FileNames, NameFault, names_of};
use std::alloc::Global;

/// A file, and its symbols.
#[derive(Drop)]
pub(crate) struct Named<'a> {
    /// The file.
    pub(crate) file: &'a SourceFile,
    /// Its symbols in source order.
    pub(crate) entries: Vec<Entry>,
    /// Its symbols, by their names.
    pub(crate) symbols: Symbols,
}

/// The files of a program with their symbols, and the outputs of each file.
#[derive(Drop)]
pub(crate) struct AllNames<'a> {
    /// The files.
    pub(crate) named: Vec<Named<'a>>,
    /// The outputs of each file, by their names.
    pub(crate) outputs: Vec<Outputs>,
}

/// Drops a value, since a name is at fault.
pub(crate) fn refuse<A: Drop, B, F>(_value: A, fault: F) -> Result<B, F>
    ensures { result ≡ Err fault }
{
    Err(fault)
}

// Puts a file last, whose names these are.
fn put<'a>(
    all: &mut AllNames<'a>,
    file: &'a SourceFile,
    names: FileNames,
) -> Result<(), OutOfMemory>
    ensures named { OnOk result (map named_view all.new.named.items ≡ map named_view all.old.named.items
        ++ named_by (program_file file.now) (map symbol_of names.entries.items) names.symbols ∷ []) }
    ensures outputs { OnOk result (all.new.outputs.items ≡ all.old.outputs.items ++ names.outputs ∷ []) }
{
    let FileNames {
        entries,
        symbols,
        outputs,
    } = names;
    all.named.push(Named {
        file,
        entries,
        symbols,
    })?;
    all.outputs.push(outputs)?;
    Ok(())
}

// Puts a file last, and its names.
fn add_file<'a>(
    alloc: Global,
    all: &mut AllNames<'a>,
    file: &'a SourceFile,
) -> Result<(), NameFault>
    ensures named { OnOk result (map named_view all.new.named.items
        ≡ map named_view all.old.named.items ++ file_named (program_file file.now) ∷ []) }
    ensures outputs { OnOk result (all.new.outputs.items
        ≡ all.old.outputs.items ++ output_names (program_file file.now) ∷ []) }
    ensures once { OnOk result (twice_of (program_file file.now) ≡ None) }
    ensures fault { IfErr result (IsTwice (twice_of (program_file file.now))) }
{
    match names_of(alloc, file.modules.as_slice(), file.file.as_slice()) {
        Ok(names) => match put(all, file, names) {
            Ok(()) => Ok(()),
            Err(_) => Err(NameFault::OutOfMemory),
        },
        Err(fault) => Err(fault),
    }
}

// The fault of a name in the file of that number.
fn fault_in(number: usize, fault: NameFault) -> ResolveFault
    ensures { result ≡ twice_at number fault }
{
    match fault {
        NameFault::Twice(at) => ResolveFault::Twice(number, at),
        NameFault::OutOfMemory => ResolveFault::OutOfMemory,
    }
}

/// The files of a program with their names, or the first name that is given twice.
pub(crate) fn all_names(alloc: Global, files: &[SourceFile]) -> Result<AllNames<'_>, ResolveFault>
    ensures named { IfOk result (λ a. map named_view a.named.items ≡ map file_named (map program_file files.now)) }
    ensures outputs { IfOk result (λ a. a.outputs.items ≡ map output_names (map program_file files.now)) }
    ensures once { OnOk result (first_in twice_of (map program_file files.now) ≡ None) }
    ensures fault { IfErr result (IsTwiceIn (map program_file files.now)) }
{
    let mut all = AllNames {
        named: Vec::new(alloc),
        outputs: Vec::new(alloc),
    };
    for (number, file) in files.iter().enumerate() {
        match add_file(alloc, &mut all, file) {
            Ok(()) => {}
            Err(fault) => return refuse(all, fault_in(number, fault)),
        }
    }
    Ok(all)
}
