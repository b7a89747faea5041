//! What the declaration of a resource or a module does not say.
ghost use Rattle.std.specs.Prelude.{◌≡◌, [], Some, IfOk, MatchOption, slice_index_or};
ghost use Rattle.depend_graph.specs.Sets.{keys_of_each};
ghost use Rattle.bicep_meaning.specs.Files.{symbol_name};
ghost use Rattle.emitted_dependencies.specs.Dependencies.{dependencies};
ghost use Rattle.emitted_modules.specs.Metadata.{metadata_at};
ghost use Rattle.emitted_modules.specs.Seen.{file_in, files_in};
ghost use Rattle.emitted_dependencies.specs.Elements.{elements};
ghost use Rattle.file_resources.specs.Built.{needs_of, needs_with, symbol_in};
ghost use Rattle.file_resources.specs.Fits.{IsReady, AreMentioned};

use arm_value::{Items, OutOfMemory, Text, Value};
use emitted_dependencies::depends_on;
use emitted_modules::{Needs, Table, copied_metadata};
use emitted_parts::{lacks, letting_go};
use std::alloc::Global;
use std::collections::BTreeSet;
use template_parts::Form;

// The numbers that the declaration of a symbol mentions.
fn mentioned_by(mentioned: &[BTreeSet<usize>], number: usize) -> Option<&BTreeSet<usize>>
    ensures { MatchOption result (slice_index_or (keys_of_each mentioned.now) number [] ≡ [])
        (λ s. slice_index_or (keys_of_each mentioned.now) number [] ≡ s.now.keys) }
{
    mentioned.get(number)
}

// The elements of `dependsOn` of the resource or the module of a number.
fn elements_of(
    alloc: Global,
    table: &Table,
    form: Form,
    mentioned: &[BTreeSet<usize>],
    number: usize,
) -> Result<Items, OutOfMemory>
    requires ready { IsReady table.now }
    requires mentioned { AreMentioned table.now mentioned.now }
    ensures { IfOk result (λ js. js
        ≡ elements (files_in table.now) (file_in table.now) form (dependencies (file_in table.now) number)) }
{
    match mentioned_by(mentioned, number) {
        Some(numbers) => depends_on(alloc, table, form, numbers),
        None => {
            let none = BTreeSet::new(alloc);
            letting_go(depends_on(alloc, table, form, &none), none)
        }
    }
}

// The symbolic name of a resource, which is that of its symbol.
fn symbol_for(alloc: Global, form: Form, symbol: &Text) -> Result<Option<Text>, OutOfMemory>
    ensures { IfOk result (λ o. o ≡ symbol_in form symbol.now) }
{
    match form {
        Form::One => Ok(None),
        Form::Two => Ok(Some(symbol.copy(alloc)?)),
    }
}

// What the declaration does not say, with these elements of `dependsOn`, and with this metadata.
fn needs_by(
    alloc: Global,
    table: &Table,
    form: Form,
    number: usize,
    symbol: &Text,
    depends_on: Items,
    metadata: Option<Value>,
) -> Result<Needs, OutOfMemory>
    requires symbol { symbol_name (file_in table.now) number ≡ Some symbol.now }
    ensures { IfOk result (λ x. x ≡ needs_with form table.now number metadata depends_on) }
{
    match symbol_for(alloc, form, symbol) {
        Ok(symbol) => Ok(Needs {
            symbol,
            depends_on,
            batches: table.batches(number),
            metadata,
        }),
        Err(_) => lacks((depends_on, metadata)),
    }
}

// The same with the metadata that a list has for the number.
fn needs_among(
    alloc: Global,
    table: &Table,
    form: Form,
    metadata: &[Option<Value>],
    number: usize,
    symbol: &Text,
    depends_on: Items,
) -> Result<Needs, OutOfMemory>
    requires symbol { symbol_name (file_in table.now) number ≡ Some symbol.now }
    ensures { IfOk result (λ x. x ≡ needs_with form table.now number (metadata_at metadata.now number) depends_on) }
{
    match copied_metadata(alloc, metadata, number) {
        Ok(own) => needs_by(alloc, table, form, number, symbol, depends_on, own),
        Err(_) => lacks(depends_on),
    }
}

/// What the declaration of the resource or the module of a number does not say. `metadata` has its metadata by its
/// number.
pub(crate) fn needs(
    alloc: Global,
    table: &Table,
    form: Form,
    mentioned: &[BTreeSet<usize>],
    metadata: &[Option<Value>],
    number: usize,
    symbol: &Text,
) -> Result<Needs, OutOfMemory>
    requires ready { IsReady table.now }
    requires mentioned { AreMentioned table.now mentioned.now }
    requires symbol { symbol_name (file_in table.now) number ≡ Some symbol.now }
    ensures { IfOk result (λ x. x ≡ needs_of form table.now number (metadata_at metadata.now number)) }
{
    match elements_of(alloc, table, form, mentioned, number) {
        Ok(elements) => needs_among(alloc, table, form, metadata, number, symbol, elements),
        Err(error) => Err(error),
    }
}

/// The same of an existing resource, which depends on nothing.
pub(crate) fn existing_needs(
    alloc: Global,
    table: &Table,
    form: Form,
    metadata: &[Option<Value>],
    number: usize,
    symbol: &Text,
) -> Result<Needs, OutOfMemory>
    requires symbol { symbol_name (file_in table.now) number ≡ Some symbol.now }
    ensures { IfOk result (λ x. x ≡ needs_with form table.now number (metadata_at metadata.now number) []) }
{
    needs_among(alloc, table, form, metadata, number, symbol, Items::new())
}
