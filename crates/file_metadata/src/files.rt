//! The metadata of the symbols and of the outputs of a file.
ghost use Rattle.std.specs.Prelude.{◌≡◌, ◌≤◌, ◌++◌, ◌∷◌, [], map, IfOk};
ghost use Rattle.bicep_tree.specs.Nesting.{file_nesting};
ghost use Rattle.bicep_tree.specs.View as view;
ghost use Rattle.file_metadata.specs.Files.{AreOf, IsMetadataOf, metadata_in, symbol_metadata, output_metadata};
ghost use Rattle.parameter_rules.specs.Files.{AllNest};
ghost use Rattle.symbol_decorators.specs.View.{decorators_at};

use crate::listing::output_decorators;
use arm_value::{OutOfMemory, Value};
use bicep_tree::Statement;
use parameter_rules::metadata;
use std::alloc::{AllocError, Global};
use symbol_decorators::{Decorated, decorators};

/// The metadata that the decorators of a file give.
#[derive(Drop)]
pub struct FileMetadata {
    /// That of each symbol, by its number. Only that of a parameter, a resource or a module is of use.
    pub symbols: Vec<Option<Value>>,
    /// That of each output, by its number.
    pub outputs: Vec<Option<Value>>,
}

// Out of memory; what was made is dropped.
fn lacks<T: Drop, R: Drop>(_made: T) -> Result<R, OutOfMemory>
    ensures { IfOk result (λ _. ⊥) }
{
    Err(AllocError)
}

// The list with one more at its end.
fn with_last(
    found: Vec<Option<Value>>,
    metadata: Option<Value>,
) -> Result<Vec<Option<Value>>, OutOfMemory>
    ensures { IfOk result (λ v. v.items ≡ found.items ++ metadata ∷ []) }
{
    let mut found = found;
    match found.push(metadata) {
        Ok(()) => Ok(found),
        Err(_) => lacks(found),
    }
}

// The metadata that each of these lists of decorators gives.
fn of_each(alloc: Global, all: &[Decorated]) -> Result<Vec<Option<Value>>, OutOfMemory>
    requires { AllNest (map decorators_at all.now) }
    ensures { IfOk result (λ v. AreOf (metadata_in (map decorators_at all.now)) v.items) }
{
    let mut found = Vec::new(alloc);
    for decorated in all {
        match metadata(alloc, decorated.decorators) {
            Ok(metadata) => found = with_last(found, metadata)?,
            Err(_) => return lacks(found),
        }
    }
    Ok(found)
}

// The metadata of the symbols.
fn of_symbols(alloc: Global, file: &[Statement]) -> Result<Vec<Option<Value>>, OutOfMemory>
    requires { file_nesting (view.file_of file.now) ≤ 119 }
    ensures { IfOk result (λ v. AreOf (symbol_metadata (view.file_of file.now)) v.items) }
{
    let all = decorators(alloc, file)?;
    of_each(alloc, all.as_slice())
}

// The metadata of the outputs.
fn of_outputs(alloc: Global, file: &[Statement]) -> Result<Vec<Option<Value>>, OutOfMemory>
    requires { file_nesting (view.file_of file.now) ≤ 119 }
    ensures { IfOk result (λ v. AreOf (output_metadata (view.file_of file.now)) v.items) }
{
    let all = output_decorators(alloc, file)?;
    of_each(alloc, all.as_slice())
}

/// The metadata of the symbols and of the outputs of a file whose expressions nest at most 119 deep.
///
/// # Errors
///
/// `OutOfMemory`.
pub fn metadata_of_file(alloc: Global, file: &[Statement]) -> Result<FileMetadata, OutOfMemory>
    requires { file_nesting (view.file_of file.now) ≤ 119 }
    ensures { IfOk result (IsMetadataOf (view.file_of file.now)) }
{
    let symbols = of_symbols(alloc, file)?;
    match of_outputs(alloc, file) {
        Ok(outputs) => Ok(FileMetadata { symbols, outputs }),
        Err(_) => lacks(symbols),
    }
}
