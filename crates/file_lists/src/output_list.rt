//! The outputs of a template.
ghost use Rattle.std.specs.Prelude.{◌≡◌, ◌≤◌, [], Some, None, IfOk, length, map, option_map, slice_get};
ghost use Rattle.bicep_resolved.specs.View.{value_of};
ghost use Rattle.bicep_declared.specs.View.{output_tree};
ghost use Rattle.emitted_values.specs.Sound.{IsSound};
ghost use Rattle.emitted_values.specs.Metadata.{metadata_at};
ghost use Rattle.emitted_values.specs.Seen.{file_in};
ghost use Rattle.emitted_values.specs.Filled.{IsFilled, emission_sight};
ghost use Rattle.emitted_values.specs.Sight.{value};
ghost use Rattle.emitted_values.specs.Buildable.{MayBeBuilt};
ghost use Rattle.named_parts.specs.Order.{AreInOrder};
ghost use Rattle.file_lists.specs.Found.{IsPart, IsNext};
ghost use Rattle.file_lists.specs.Lists.{output_name, IsNoted, AreOutputs, HaveMetadata, OutputsFit, OutputsDiffer};
ghost use Rattle.file_lists.specs.Lists.{output_count};

use crate::growing::{there, with_optional};
use arm_value::{ListOf, OutOfMemory, Text, Value};
use bicep_declared::DeclaredOutput;
use emitted_parts::{lacks, letting_go};
use emitted_values::{Table, copied_metadata, output};
use std::alloc::Global;
use template_parts::Output;

// The output of a name, where it is there, and of a declaration, with this metadata.
fn output_of(
    alloc: Global,
    table: &Table,
    name: Option<&Text>,
    declared: &DeclaredOutput,
    metadata: Option<Value>,
) -> Result<Option<Output>, OutOfMemory>
    requires filled { IsFilled table.now }
    requires sound { IsSound (file_in table.now) }
    requires fits { MayBeBuilt (value (emission_sight table.now) None (value_of declared.now.value) []) }
    ensures { IfOk result (IsPart output_name (IsNoted table.now) (option_map (λ t. t.now) name.entry)
        (Some (output_tree declared.now, metadata))) }
{
    match name {
        Some(name) => there(output(alloc, table, name, declared, metadata)),
        None => letting_go(Ok(None), metadata),
    }
}

// The same with the metadata of a number.
fn output_at(
    alloc: Global,
    table: &Table,
    name: Option<&Text>,
    declared: &DeclaredOutput,
    metadata: &[Option<Value>],
    number: usize,
) -> Result<Option<Output>, OutOfMemory>
    requires filled { IsFilled table.now }
    requires sound { IsSound (file_in table.now) }
    requires fits { MayBeBuilt (value (emission_sight table.now) None (value_of declared.now.value) []) }
    ensures { IfOk result (IsPart output_name (IsNoted table.now) (option_map (λ t. t.now) name.entry)
        (Some (output_tree declared.now, metadata_at metadata.now number))) }
{
    match copied_metadata(alloc, metadata, number) {
        Ok(metadata) => output_of(alloc, table, name, declared, metadata),
        Err(error) => Err(error),
    }
}

// The outputs with that of a declaration.
fn with_declared(
    alloc: Global,
    table: &Table,
    name: Option<&Text>,
    declared: &DeclaredOutput,
    metadata: &[Option<Value>],
    number: usize,
    all: ListOf<Output>,
) -> Result<ListOf<Output>, OutOfMemory>
    requires filled { IsFilled table.now }
    requires sound { IsSound (file_in table.now) }
    requires fits { MayBeBuilt (value (emission_sight table.now) None (value_of declared.now.value) []) }
    ensures { IfOk result (IsNext output_name (IsNoted table.now) (option_map (λ t. t.now) name.entry)
        (Some (output_tree declared.now, metadata_at metadata.now number)) all) }
{
    match output_at(alloc, table, name, declared, metadata, number) {
        Ok(output) => with_optional(all, output),
        Err(_) => lacks(all),
    }
}

// The name of a number.
fn name_of(names: &[Text], number: usize) -> Option<&Text>
    ensures { option_map (λ t. t.now) result ≡ slice_get names.now number }
{
    names.get(number)
}

// The outputs of these declarations with these names, which are those of the file.
fn outputs_of(
    alloc: Global,
    table: &Table,
    names: &[Text],
    declarations: &[DeclaredOutput],
    metadata: &[Option<Value>],
) -> Result<ListOf<Output>, OutOfMemory>
    requires filled { IsFilled table.now }
    requires sound { IsSound (file_in table.now) }
    requires differ { OutputsDiffer table.now }
    requires fits { OutputsFit table.now }
    requires names { names.now ≡ (file_in table.now).outputs }
    requires declared { map output_tree declarations.now ≡ (file_in table.now).declared.outputs }
    ensures outputs { IfOk result (AreOutputs table.now) }
    ensures metadata { IfOk result (HaveMetadata table.now metadata.now) }
    ensures order { IfOk result (AreInOrder output_name) }
    ensures count { IfOk result (λ xs. length xs ≤ output_count table.now) }
{
    let mut all = ListOf::new(alloc);
    for (number, declared) in declarations.iter().enumerate() {
        let name = name_of(names, number);
        match with_declared(alloc, table, name, declared, metadata, number, all) {
            Ok(more) => all = more,
            Err(error) => return Err(error),
        }
    }
    Ok(all)
}

/// The outputs of the template of a file, with a table of all its declarations, in byte order of their names.
/// `metadata` has by the number of each output its metadata.
///
/// # Errors
///
/// `OutOfMemory`.
pub fn outputs(
    alloc: Global,
    table: &Table,
    metadata: &[Option<Value>],
) -> Result<ListOf<Output>, OutOfMemory>
    requires filled { IsFilled table.now }
    requires sound { IsSound (file_in table.now) }
    requires names { OutputsDiffer table.now }
    requires fits { OutputsFit table.now }
    ensures outputs { IfOk result (AreOutputs table.now) }
    ensures metadata { IfOk result (HaveMetadata table.now metadata.now) }
    ensures order { IfOk result (AreInOrder output_name) }
    ensures count { IfOk result (λ xs. length xs ≤ output_count table.now) }
{
    let file = table.file();
    outputs_of(
        alloc,
        table,
        file.outputs.as_slice(),
        file.declared.outputs.as_slice(),
        metadata,
    )
}
