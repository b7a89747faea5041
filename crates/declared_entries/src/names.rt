//! The names of resources and modules.
ghost use Rattle.std.specs.Prelude.{◌≡◌, ◌∷◌, [], Some, option_map, IfOk};
ghost use Rattle.bicep_resolved.specs.Source.{ValueTree};
ghost use Rattle.bicep_resolved.specs.View.{value_of};
ghost use Rattle.bicep_declared.specs.View.{declared_tree, body_tree};
ghost use Rattle.bicep_meaning.specs.Files.{declaration};
ghost use Rattle.bicep_emission.specs.Emittable.{IsValue};
ghost use Rattle.declaration_laws.specs.Sound.{IsSound};
ghost use Rattle.emitted_declarations.specs.Declared as spec;
ghost use Rattle.emission_laws.specs.Holes.{holes};
ghost use Rattle.kept_expressions.specs.Kept.{IsKeptHoles};
ghost use Rattle.declared_table.specs.Seen.{file_in, files_in, emission_in};

use crate::parents::name_field;
use arm_value::OutOfMemory;
use bicep_declared::{Declared, DeclaredBody};
use bicep_resolved::SourceValue;
use declared_table::Table;
use kept_expressions::{KeptHoles, made_value_holes};
use kept_parts::{kept_nothing, symbol_name};
use std::alloc::Global;

// A value, with holes for the loop around it.
fn own_value(alloc: Global, table: &Table, value: &SourceValue) -> Result<KeptHoles, OutOfMemory>
    requires sound { IsSound (file_in table.now) }
    requires value { IsValue (value_of value.now) }
    ensures { IfOk result (IsKeptHoles (spec.value_of (file_in table.now) (files_in table.now)
        (emission_in table.now) (value_of value.now) (holes ∷ []))) }
{
    made_value_holes(alloc, table, value)
}

// The name of a resource, which is the value of its field.
fn resource_name(
    alloc: Global,
    table: &Table,
    value: Option<&SourceValue>,
) -> Result<KeptHoles, OutOfMemory>
    requires sound { IsSound (file_in table.now) }
    requires value { (v : ValueTree) → option_map (λ x. value_of x.now) value ≡ Some v → IsValue v }
    ensures { IfOk result (IsKeptHoles (spec.value_or_none (file_in table.now) (files_in table.now)
        (emission_in table.now) (option_map (λ x. value_of x.now) value.entry) (holes ∷ []))) }
{
    match value {
        Some(value) => own_value(alloc, table, value),
        None => kept_nothing(alloc),
    }
}

// The name of a module: the value of its field, or else its symbol.
fn module_name(
    alloc: Global,
    table: &Table,
    number: usize,
    body: &DeclaredBody,
    value: Option<&SourceValue>,
) -> Result<KeptHoles, OutOfMemory>
    requires sound { IsSound (file_in table.now) }
    requires value { (v : ValueTree) → option_map (λ x. value_of x.now) value ≡ Some v → IsValue v }
    ensures { IfOk result (IsKeptHoles (spec.module_name (file_in table.now) (files_in table.now)
        (emission_in table.now) number (body_tree body.now) (option_map (λ x. value_of x.now) value.entry)
        (holes ∷ []))) }
{
    match value {
        Some(value) => own_value(alloc, table, value),
        None => symbol_name(alloc, table.name_of(number), body.each.is_some()),
    }
}

// The name of a resource or a module; of any other declaration an expression without a value.
fn declared_name(
    alloc: Global,
    table: &Table,
    number: usize,
    declared: &Declared,
) -> Result<KeptHoles, OutOfMemory>
    requires sound { IsSound (file_in table.now) }
    requires declared { declaration (file_in table.now) number ≡ Some (declared_tree declared.now) }
    ensures { IfOk result (IsKeptHoles (spec.name_by (file_in table.now) (files_in table.now) (emission_in table.now)
        number (Some (declared_tree declared.now)) (holes ∷ []))) }
{
    match declared {
        Declared::Resource(_, _, _, body) => {
            resource_name(alloc, table, name_field(body.fields.as_slice()))
        }
        Declared::Module(_, body) => {
            let value = name_field(body.fields.as_slice());
            module_name(alloc, table, number, body, value)
        }
        Declared::Parameter(_, _) | Declared::ParameterWith(_, _, _) | Declared::Variable(_, _) =>
            kept_nothing(alloc),
    }
}

/// The name of a resource or a module, with holes for the loop around its declaration; of any other declaration an
/// expression without a value.
pub(crate) fn own_name(
    alloc: Global,
    table: &Table,
    number: usize,
    declared: Option<&Declared>,
) -> Result<KeptHoles, OutOfMemory>
    requires sound { IsSound (file_in table.now) }
    requires declared { declaration (file_in table.now) number ≡ option_map (λ d. declared_tree d.now) declared }
    ensures { IfOk result (IsKeptHoles (spec.name_by (file_in table.now) (files_in table.now) (emission_in table.now)
        number (option_map (λ d. declared_tree d.now) declared.entry) (holes ∷ []))) }
{
    match declared {
        Some(declared) => declared_name(alloc, table, number, declared),
        None => kept_nothing(alloc),
    }
}
