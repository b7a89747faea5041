//! The outputs of a template.
ghost use Rattle.std.specs.Prelude.{◌≡◌, [], IfOk, None};
ghost use Rattle.bicep_declared.specs.View.{output_tree};
ghost use Rattle.bicep_resolved.specs.View.{value_of};
ghost use Rattle.declaration_laws.specs.Sound.{IsSound};
ghost use Rattle.filled_tables.specs.Seen.{file_in, files_in};
ghost use Rattle.emitted_files.specs.Files.{IsOutput};
ghost use Rattle.filled_tables.specs.Filled.{IsFilled, emission_sight};
ghost use Rattle.tree_building.specs.Sight as spec;
ghost use Rattle.emitted_values.specs.Kinds as kinds;
ghost use Rattle.emitted_values.specs.Buildable.{MayBeBuilt};

use crate::contents::content;
use arm_value::{OutOfMemory, Text, Value};
use bicep_declared::DeclaredOutput;
use bicep_tree::TypeName;
use emitted_expressions::lacks;
use filled_tables::Table;
use std::alloc::Global;
use template_parts::{Content, Output, ValueType};

/// The type of a parameter or an output that holds no secret, as templates name it.
pub fn kind_of(kind: TypeName) -> ValueType
    ensures { result ≡ kinds.kind_of kind }
{
    match kind {
        TypeName::String => ValueType::String,
        TypeName::Int => ValueType::Int,
        TypeName::Bool => ValueType::Bool,
        TypeName::Object => ValueType::Object,
        TypeName::Array => ValueType::Array,
    }
}

// The output of a name, a type, a value and this metadata, which is always there.
fn named(
    alloc: Global,
    name: &Text,
    kind: ValueType,
    content: Content,
    metadata: Option<Value>,
) -> Result<Output, OutOfMemory>
    ensures name { IfOk result (λ q. q.name ≡ name.now) }
    ensures kind { IfOk result (λ q. q.kind ≡ kind) }
    ensures content { IfOk result (λ q. q.content ≡ content) }
    ensures condition { IfOk result (λ q. q.condition ≡ None) }
    ensures metadata { IfOk result (λ q. q.metadata ≡ metadata) }
{
    match name.copy(alloc) {
        Ok(name) => Ok(Output {
            name,
            kind,
            content,
            condition: None,
            metadata,
        }),
        Err(_) => lacks((content, metadata)),
    }
}

/// The output of a name that the file declares, whose value is within the limits of templates, with a table of all
/// declarations of the file and with this metadata.
///
/// # Errors
///
/// `OutOfMemory`.
pub fn output(
    alloc: Global,
    table: &Table,
    name: &Text,
    declared: &DeclaredOutput,
    metadata: Option<Value>,
) -> Result<Output, OutOfMemory>
    requires filled { IsFilled table.now }
    requires sound { IsSound (file_in table.now) }
    requires within { MayBeBuilt (spec.value (emission_sight table.now) None (value_of declared.now.value) []) }
    ensures name { IfOk result (λ q. q.name ≡ name.now) }
    ensures metadata { IfOk result (λ q. q.metadata ≡ metadata) }
    ensures output { IfOk result (IsOutput (files_in table.now) (file_in table.now) (output_tree declared.now)) }
{
    match content(alloc, table, None, &declared.value, &[]) {
        Ok(content) => named(alloc, name, kind_of(declared.kind), content, metadata),
        Err(_) => lacks(metadata),
    }
}
