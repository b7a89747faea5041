//! What variables become, and what loops run over.
ghost use Rattle.std.specs.Prelude.{◌≡◌, ℕ, Some, option_map, option_and_then, IfOk};
ghost use Rattle.bicep_resolved.specs.View.{value_of, loop_of};
ghost use Rattle.bicep_declared.specs.Declarations.{variable as variable_tree};
ghost use Rattle.bicep_declared.specs.View.{declared_tree, body_tree};
ghost use Rattle.bicep_meaning.specs.Declared.{body_of as body_of_tree};
ghost use Rattle.bicep_emission.specs.Emitted.{no_value as no_value_tree};
ghost use Rattle.emitted_declarations.specs.Declared as spec;
ghost use Rattle.kept_expressions.specs.Kept.{IsKept};
ghost use Rattle.declared_table.specs.Seen.{file_in, files_in, emission_in};

use arm_value::{OutOfMemory, Text};
use bicep_declared::{Declared, DeclaredBody};
use bicep_resolved::{SourceLoop, SourceValue};
use declared_table::Table;
use emitted_parts::calls::call_one;
use emitted_parts::literals::{no_value, text};
use emitted_sizes::{calls as call_sizes, literals as literal_sizes};
use kept_expressions::{Kept, beyond, is_within, keep, made, made_value};
use std::alloc::Global;

/// The body of a resource or a module.
pub(crate) fn body_of<'a>(declared: Option<&'a Declared>) -> Option<&'a DeclaredBody>
    ensures { option_map (λ b. body_tree b.now) result
        ≡ option_and_then body_of_tree (option_map (λ d. declared_tree d.now) declared.entry) }
{
    match declared {
        Some(Declared::Resource(_, _, _, body)) => Some(body),
        Some(Declared::Module(_, body)) => Some(body),
        Some(
            Declared::Parameter(_, _) | Declared::ParameterWith(_, _, _) | Declared::Variable(_, _),
        )
        | None => None,
    }
}

/// An expression without a value.
pub(crate) fn nothing(alloc: Global) -> Result<Kept, OutOfMemory>
    ensures { IfOk result (IsKept no_value_tree) }
{
    let extent = literal_sizes::no_value();
    if !is_within(extent) {
        return Ok(beyond(extent));
    }
    keep(extent, no_value(alloc))
}

// An entry of the variables, by its name.
fn entry_named(alloc: Global, name: &Text) -> Result<Kept, OutOfMemory>
    ensures { IfOk result (IsKept (spec.variable_entry (Some name.now))) }
{
    let extent = call_sizes::call_one(9, literal_sizes::text(name));
    if !is_within(extent) {
        return Ok(beyond(extent));
    }
    keep(extent, call_one(alloc, "variables", text(alloc, name)))
}

fn variable_entry(alloc: Global, name: Option<&Text>) -> Result<Kept, OutOfMemory>
    ensures { IfOk result (IsKept (spec.variable_entry (option_map (λ t. t.now) name.entry))) }
{
    match name {
        Some(name) => entry_named(alloc, name),
        None => nothing(alloc),
    }
}

// Of a variable its entry, or else its expression.
fn own_variable(
    alloc: Global,
    table: &Table,
    number: usize,
    value: &SourceValue,
) -> Result<Kept, OutOfMemory>
    ensures { (at : ℕ) → IfOk result (IsKept (spec.variable_of (file_in table.now) (files_in table.now)
        (emission_in table.now) number (Some (variable_tree at (value_of value.now))))) }
{
    if table.is_entry(number) {
        variable_entry(alloc, table.name_of(number))
    } else {
        made_value(alloc, table, value)
    }
}

// What a variable becomes; any other declaration is an expression without a value.
fn declared_variable(
    alloc: Global,
    table: &Table,
    number: usize,
    declared: &Declared,
) -> Result<Kept, OutOfMemory>
    ensures { IfOk result (IsKept (spec.variable_of (file_in table.now) (files_in table.now) (emission_in table.now)
        number (Some (declared_tree declared.now)))) }
{
    match declared {
        Declared::Variable(_, value) => own_variable(alloc, table, number, value),
        Declared::Parameter(_, _)
        | Declared::ParameterWith(_, _, _)
        | Declared::Resource(_, _, _, _)
        | Declared::Module(_, _) => nothing(alloc),
    }
}

/// What a variable becomes; any other declaration is an expression without a value.
pub(crate) fn variable(
    alloc: Global,
    table: &Table,
    number: usize,
    declared: Option<&Declared>,
) -> Result<Kept, OutOfMemory>
    ensures { IfOk result (IsKept (spec.variable_of (file_in table.now) (files_in table.now) (emission_in table.now)
        number (option_map (λ d. declared_tree d.now) declared.entry))) }
{
    match declared {
        Some(declared) => declared_variable(alloc, table, number, declared),
        None => nothing(alloc),
    }
}

#[tactic(auto, using(bicep_resolved::proofs::ViewLemmas::structs))]
fn over(alloc: Global, table: &Table, each: Option<&SourceLoop>) -> Result<Kept, OutOfMemory>
    ensures { IfOk result (IsKept (spec.over (file_in table.now) (files_in table.now) (emission_in table.now)
        (option_map (λ l. loop_of l.now) each.entry))) }
{
    match each {
        Some(each) => made(alloc, table, &each.over),
        None => nothing(alloc),
    }
}

/// What a loop of resources or modules runs over; without a loop an expression without a value.
pub(crate) fn items(
    alloc: Global,
    table: &Table,
    declared: Option<&Declared>,
) -> Result<Kept, OutOfMemory>
    ensures { IfOk result (IsKept (spec.over (file_in table.now) (files_in table.now) (emission_in table.now)
        (option_and_then (λ x. x.each)
        (option_and_then body_of_tree (option_map (λ d. declared_tree d.now) declared.entry))))) }
{
    match body_of(declared) {
        Some(body) => over(alloc, table, body.each.as_ref()),
        None => nothing(alloc),
    }
}
