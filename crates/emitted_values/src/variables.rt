//! The variables of a template.
ghost use Rattle.std.specs.Prelude.{◌≡◌, [], IfOk, Some};
ghost use Rattle.bicep_resolved.specs.View.{value_of};
ghost use Rattle.declaration_laws.specs.Sound.{IsSound};
ghost use Rattle.filled_tables.specs.Seen.{file_in, files_in};
ghost use Rattle.emitted_files.specs.Files.{IsVariable};
ghost use Rattle.filled_tables.specs.Filled.{IsFilled, emission_sight};
ghost use Rattle.tree_building.specs.Sight as spec;
ghost use Rattle.emitted_values.specs.Buildable.{MayBeBuilt};

use crate::contents::content;
use arm_value::{OutOfMemory, Text};
use bicep_resolved::SourceValue;
use emitted_expressions::lacks;
use filled_tables::Table;
use std::alloc::Global;
use template_parts::{Content, Variable};

// The variable of a name and a value.
fn named(alloc: Global, name: &Text, content: Content) -> Result<Variable, OutOfMemory>
    ensures name { IfOk result (λ q. q.name ≡ name.now) }
    ensures content { IfOk result (λ q. q.content ≡ content) }
{
    match name.copy(alloc) {
        Ok(name) => Ok(Variable { name, content }),
        Err(_) => lacks(content),
    }
}

/// The variable of a value, which is within the limits of templates, with a table of all declarations of its file. A
/// loop has the name of the variable.
///
/// # Errors
///
/// `OutOfMemory`.
pub fn variable(
    alloc: Global,
    table: &Table,
    name: &Text,
    value: &SourceValue,
) -> Result<Variable, OutOfMemory>
    requires filled { IsFilled table.now }
    requires sound { IsSound (file_in table.now) }
    requires within { MayBeBuilt (spec.value (emission_sight table.now) (Some name.now) (value_of value.now) []) }
    ensures name { IfOk result (λ q. q.name ≡ name.now) }
    ensures variable { IfOk result (IsVariable (files_in table.now) (file_in table.now) (value_of value.now)) }
{
    match content(alloc, table, Some(name), value, &[]) {
        Ok(content) => named(alloc, name, content),
        Err(error) => Err(error),
    }
}
