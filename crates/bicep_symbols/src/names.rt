// The names of a file.
ghost use Rattle.std.specs.Prelude.{◌≡◌, map, IfOk, IfErr, OnOk, None};
ghost use Rattle.bicep_tree.specs.View.{file_of};
ghost use Rattle.bicep_members.specs.Files.{repeated_member};
ghost use Rattle.bicep_symbols.specs.Entries.{symbol_of, symbols_of, looked_up};
ghost use Rattle.bicep_symbols.specs.Outputs.{outputs_of, looked_up_outputs};
ghost use Rattle.bicep_symbols.specs.Repeated.{repeated_output, IsTwice};
ghost use Rattle.bicep_symbols.specs.Names.{repeated_name};
ghost use Rattle.foundation.specs.Options.{or_else};

use crate::entry::Entry;
use crate::fault::NameFault;
use crate::listing::entries;
use crate::outputs::{output_names, register_outputs};
use crate::registry::{refuse, register};
use bicep_members::repeated_member;
use bicep_names::{Outputs, Symbols};
use bicep_tree::Statement;
use std::alloc::Global;

/// The names of a file.
#[derive(Drop)]
pub struct FileNames {
    /// Its symbols in source order, as they are written.
    pub entries: Vec<Entry>,
    /// Its symbols, by their names.
    pub symbols: Symbols,
    /// Its outputs, by their names.
    pub outputs: Outputs,
}

// The outputs of a file, or the first that is given twice.
fn outputs_in(alloc: Global, file: &[Statement]) -> Result<Outputs, NameFault>
    ensures outputs { IfOk result (λ s. s ≡ looked_up_outputs (outputs_of (file_of file.now))) }
    ensures once { OnOk result (repeated_output (outputs_of (file_of file.now)) ≡ None) }
    ensures fault { IfErr result (IsTwice (repeated_output (outputs_of (file_of file.now)))) }
{
    match output_names(alloc, file) {
        Ok(names) => register_outputs(alloc, names.as_slice()),
        Err(_) => Err(NameFault::OutOfMemory),
    }
}

// That no name is given twice in an object or a loop.
fn members_differ(alloc: Global, file: &[Statement]) -> Result<(), NameFault>
    ensures once { OnOk result (repeated_member (file_of file.now) ≡ None) }
    ensures fault { IfErr result (IsTwice (repeated_member (file_of file.now))) }
{
    match repeated_member(alloc, file) {
        Ok(None) => Ok(()),
        Ok(Some(at)) => Err(NameFault::Twice(at)),
        Err(_) => Err(NameFault::OutOfMemory),
    }
}

// The names of a file whose symbols these are.
fn with_outputs(
    alloc: Global,
    entries: Vec<Entry>,
    symbols: Symbols,
    file: &[Statement],
) -> Result<FileNames, NameFault>
    ensures entries { IfOk result (λ n. n.entries ≡ entries) }
    ensures symbols { IfOk result (λ n. n.symbols ≡ symbols) }
    ensures outputs { IfOk result (λ n. n.outputs ≡ looked_up_outputs (outputs_of (file_of file.now))) }
    ensures once { OnOk result (or_else (repeated_output (outputs_of (file_of file.now)))
        (repeated_member (file_of file.now)) ≡ None) }
    ensures fault { IfErr result (IsTwice (or_else (repeated_output (outputs_of (file_of file.now)))
        (repeated_member (file_of file.now)))) }
{
    let outputs = match outputs_in(alloc, file) {
        Ok(outputs) => outputs,
        Err(fault) => return refuse((entries, symbols), fault),
    };
    match members_differ(alloc, file) {
        Ok(()) => Ok(FileNames {
            entries,
            symbols,
            outputs,
        }),
        Err(fault) => refuse(((entries, symbols), outputs), fault),
    }
}

/// The symbols and the outputs of a file. `modules` has for each module of the file the number of its file in the
/// program.
///
/// # Errors
///
/// - `Twice`: a symbol is named `sys` or `az` or as one before it, an output as one before it, each after ASCII case
///   folding, or a name is given twice in an object or a loop.
/// - `OutOfMemory`.
pub fn names_of(alloc: Global, modules: &[u32], file: &[Statement]) -> Result<FileNames, NameFault>
    ensures entries { IfOk result (λ n. map symbol_of n.entries.items ≡ symbols_of modules.now (file_of file.now)) }
    ensures symbols { IfOk result (λ n. n.symbols ≡ looked_up (symbols_of modules.now (file_of file.now))) }
    ensures outputs { IfOk result (λ n. n.outputs ≡ looked_up_outputs (outputs_of (file_of file.now))) }
    ensures once { OnOk result (repeated_name modules.now (file_of file.now) ≡ None) }
    ensures fault { IfErr result (IsTwice (repeated_name modules.now (file_of file.now))) }
{
    let entries = match entries(alloc, modules, file) {
        Ok(entries) => entries,
        Err(_) => return Err(NameFault::OutOfMemory),
    };
    match register(alloc, entries.as_slice()) {
        Ok(symbols) => with_outputs(alloc, entries, symbols, file),
        Err(fault) => refuse(entries, fault),
    }
}
