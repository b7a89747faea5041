// The types of the symbols of files, and what does not fit in them.
ghost use Rattle.std.specs.Prelude.{◌≡◌, map, IfOk, IfErr, OnOk, None};
ghost use Rattle.std.specs.List.{AllByRecursion};
ghost use Rattle.bicep_program.specs.Program.{program_file};
ghost use Rattle.bicep_numbers.specs.Orders.{IsLinkOrder};
ghost use Rattle.bicep_checks.specs.Faults.{links_of};
ghost use Rattle.bicep_typing.specs.Names.{listed};
ghost use Rattle.resolved_program.specs.Faults.{first_in};
ghost use Rattle.resolved_program.specs.View.{file_view};
ghost use Rattle.bicep_types.specs.Program as spec;
ghost use Rattle.bicep_types.specs.Steps.{HasDeclarations, HasNoCircle, AreFound, IsWrongAt};

use crate::fault::CheckFault;
use arm_value::OutOfMemory;
use bicep_numbers::symbol_order;
use bicep_program::SourceFile;
use bicep_signatures::ValueType;
use bicep_symbol_types::{output_types, symbol_types};
use bicep_type_faults::file_fits;
use bicep_typing::Fitting;
use depend_graph::Sorted;
use resolved_program::ResolvedFile;
use std::alloc::Global;

/// For each file the types of its outputs.
pub(crate) fn all_output_types(
    alloc: Global,
    files: &[SourceFile],
) -> Result<Vec<Vec<ValueType>>, OutOfMemory>
    ensures { IfOk result (λ os. map listed os.items ≡ spec.all_output_types (map program_file files.now)) }
{
    let mut outputs = Vec::new(alloc);
    for file in files {
        outputs.push(output_types(alloc, file.file.as_slice())?)?;
    }
    Ok(outputs)
}

// The types of the symbols of a file, by an order of them.
fn types_along(
    alloc: Global,
    outputs: &[Vec<ValueType>],
    file: &ResolvedFile,
    order: &[u32],
) -> Result<Vec<ValueType>, OutOfMemory>
    requires declared { HasDeclarations (file_view file.now) }
    requires order { IsLinkOrder (links_of (file_view file.now)) order.now }
    ensures types { IfOk result (λ ts. ts.items
        ≡ spec.symbol_types_by (map listed outputs.now) (file_view file.now)) }
    ensures settled { OnOk result (spec.IsSettledBy (map listed outputs.now) (file_view file.now)) }
{
    symbol_types(alloc, outputs, file.declared.declarations.as_slice(), order)
}

// The types of the symbols of a file.
fn types_of(
    alloc: Global,
    outputs: &[Vec<ValueType>],
    file: &ResolvedFile,
) -> Result<Vec<ValueType>, OutOfMemory>
    requires declared { HasDeclarations (file_view file.now) }
    requires free { HasNoCircle (file_view file.now) }
    ensures types { IfOk result (λ ts. ts.items
        ≡ spec.symbol_types_by (map listed outputs.now) (file_view file.now)) }
    ensures settled { OnOk result (spec.IsSettledBy (map listed outputs.now) (file_view file.now)) }
{
    let declarations = file.declared.declarations.as_slice();
    match symbol_order(alloc, file.entries.as_slice(), declarations)? {
        Sorted::Order(order) => types_along(alloc, outputs, file, order.as_slice()),
        Sorted::Circle(_) => unreachable!(),
    }
}

// The place of the first part that does not fit, where one does not.
fn place_of(fitting: Fitting) -> Option<usize>
    ensures { result ≡ spec.place_of fitting }
{
    match fitting {
        Ok(()) => None,
        Err(at) => Some(at),
    }
}

// The first part of a file that does not fit, by the types of its symbols.
fn place_in(
    files: &[SourceFile],
    outputs: &[Vec<ValueType>],
    types: &[ValueType],
    file: &ResolvedFile,
) -> Option<usize>
    requires { types.now ≡ spec.symbol_types_by (map listed outputs.now) (file_view file.now) }
    ensures { result
        ≡ spec.type_place_by (map program_file files.now) (map listed outputs.now) (file_view file.now) }
{
    let entries = file.entries.as_slice();
    place_of(file_fits(files, types, outputs, entries, &file.declared))
}

// The types of the symbols of a file, or the first part that does not fit.
fn types_or_place(
    alloc: Global,
    files: &[SourceFile],
    outputs: &[Vec<ValueType>],
    file: &ResolvedFile,
) -> Result<Result<Vec<ValueType>, usize>, OutOfMemory>
    requires declared { HasDeclarations (file_view file.now) }
    requires free { HasNoCircle (file_view file.now) }
    ensures found { IfOk result (AreFound (spec.symbol_types_by (map listed outputs.now) (file_view file.now))
        (spec.type_place_by (map program_file files.now) (map listed outputs.now) (file_view file.now))) }
    ensures settled { OnOk result (spec.IsSettledBy (map listed outputs.now) (file_view file.now)) }
{
    let types = types_of(alloc, outputs, file)?;
    match place_in(files, outputs, types.as_slice(), file) {
        Some(at) => Ok(Err(at)),
        None => Ok(Ok(types)),
    }
}

/// The types of the symbols of all files.
///
/// # Errors
///
/// `WrongType` at the first part that does not fit, or `OutOfMemory`.
pub(crate) fn all_symbol_types(
    alloc: Global,
    files: &[SourceFile],
    outputs: &[Vec<ValueType>],
    resolved: &[ResolvedFile],
) -> Result<Vec<Vec<ValueType>>, CheckFault>
    requires declared { AllByRecursion HasDeclarations (map file_view resolved.now) }
    requires free { AllByRecursion HasNoCircle (map file_view resolved.now) }
    ensures types { IfOk result (λ tss. map listed tss.items
        ≡ map (spec.symbol_types_by (map listed outputs.now)) (map file_view resolved.now)) }
    ensures settled { OnOk result (AllByRecursion (spec.IsSettledBy (map listed outputs.now))
        (map file_view resolved.now)) }
    ensures none { OnOk result (first_in (spec.type_place_by (map program_file files.now) (map listed outputs.now))
        (map file_view resolved.now) ≡ None) }
    ensures fault { IfErr result (IsWrongAt (first_in
        (spec.type_place_by (map program_file files.now) (map listed outputs.now)) (map file_view resolved.now))) }
{
    let mut all = Vec::new(alloc);
    for (number, file) in resolved.iter().enumerate() {
        match types_or_place(alloc, files, outputs, file) {
            Ok(found) => match found {
                Ok(types) => match all.push(types) {
                    Ok(()) => {}
                    Err(_) => return Err(CheckFault::OutOfMemory),
                },
                Err(at) => return Err(CheckFault::WrongType(number, at)),
            },
            Err(_) => return Err(CheckFault::OutOfMemory),
        }
    }
    Ok(all)
}
