//! The parameters of a template.
ghost use Rattle.std.specs.Prelude.{◌≡◌, ◌≤◌, Some, IfOk, is_some, length, option_map};
ghost use Rattle.arm_value.specs.View.{json};
ghost use Rattle.bicep_declared.specs.View.{declared_tree};
ghost use Rattle.bicep_meaning.specs.Files.{declaration, symbol_kind, symbol_name};
ghost use Rattle.bicep_meaning.specs.Instances.{is_parameter};
ghost use Rattle.emitted_values.specs.Sound.{IsSound};
ghost use Rattle.emitted_values.specs.Values.{AreBoth};
ghost use Rattle.emitted_values.specs.Seen.{file_in};
ghost use Rattle.emitted_values.specs.Filled.{IsFilled};
ghost use Rattle.named_parts.specs.Order.{AreInOrder};
ghost use Rattle.file_lists.specs.Found.{IsPart, IsNext};
ghost use Rattle.file_lists.specs.Lists as lists;
ghost use Rattle.file_lists.specs.Lists.{parameter_name, IsDefault, IsCompleted, AreParameters, AreRules, DefaultsFit};
ghost use Rattle.file_lists.specs.Lists.{parameter_at, parameter_count, SymbolsDiffer};

use crate::growing::{there, with_optional};
use arm_value::{ListOf, OutOfMemory, Value};
use bicep_declared::Declared;
use emitted_parts::lacks;
use emitted_values::{Table, default_value};
use std::alloc::Global;
use template_parts::{Copied, Parameter};

// The default of a declaration, where it is that of a parameter that has one.
fn default_in(
    alloc: Global,
    table: &Table,
    number: usize,
    declared: &Declared,
) -> Result<Option<Value>, OutOfMemory>
    requires filled { IsFilled table.now }
    requires sound { IsSound (file_in table.now) }
    requires fits { DefaultsFit table.now }
    requires declared { declaration (file_in table.now) number ≡ Some (declared_tree declared.now) }
    ensures { IfOk result (AreBoth (λ e v. IsDefault table.now e (json v)) (lists.default_of table.now number)) }
{
    match declared {
        Declared::ParameterWith(_, _, value) => there(default_value(alloc, table, value)),
        Declared::Parameter(_, _)
        | Declared::Variable(_, _)
        | Declared::Resource(_, _, _, _)
        | Declared::Module(_, _) => Ok(None),
    }
}

// The same of a declaration that may be there.
fn default_by(
    alloc: Global,
    table: &Table,
    number: usize,
    declared: Option<&Declared>,
) -> Result<Option<Value>, OutOfMemory>
    requires filled { IsFilled table.now }
    requires sound { IsSound (file_in table.now) }
    requires fits { DefaultsFit table.now }
    requires declared { option_map (λ d. declared_tree d.now) declared ≡ declaration (file_in table.now) number }
    ensures { IfOk result (AreBoth (λ e v. IsDefault table.now e (json v)) (lists.default_of table.now number)) }
{
    match declared {
        Some(declared) => default_in(alloc, table, number, declared),
        None => Ok(None),
    }
}

// The default of a symbol, where it is a parameter that has one.
fn default_of(alloc: Global, table: &Table, number: usize) -> Result<Option<Value>, OutOfMemory>
    requires filled { IsFilled table.now }
    requires sound { IsSound (file_in table.now) }
    requires fits { DefaultsFit table.now }
    ensures { IfOk result (AreBoth (λ e v. IsDefault table.now e (json v)) (lists.default_of table.now number)) }
{
    let declarations = table.file().declared.declarations.as_slice();
    default_by(alloc, table, number, declarations.get(number))
}

// The parameter with a default.
fn completed(
    alloc: Global,
    rule: &Parameter,
    default_value: Option<Value>,
) -> Result<Parameter, OutOfMemory>
    ensures { IfOk result (λ q. q ≡ record rule.now { default_value = default_value }) }
{
    match rule.copied(alloc) {
        Ok(mut parameter) => {
            parameter.default_value = default_value;
            Ok(parameter)
        }
        Err(_) => lacks(default_value),
    }
}

// The parameter of a symbol with its default.
fn parameter_of(
    alloc: Global,
    table: &Table,
    number: usize,
    rule: &Option<Parameter>,
) -> Result<Option<Parameter>, OutOfMemory>
    requires filled { IsFilled table.now }
    requires sound { IsSound (file_in table.now) }
    requires fits { DefaultsFit table.now }
    requires there { is_some rule.now ≡ is_parameter (symbol_kind (file_in table.now) number) }
    requires name { (p : Parameter) → rule.now ≡ Some p → symbol_name (file_in table.now) number ≡ Some p.name }
    ensures { IfOk result (IsPart parameter_name (IsCompleted table.now rule.now)
        (symbol_name (file_in table.now) number) (parameter_at table.now number)) }
{
    match rule {
        Some(rule) => match default_of(alloc, table, number) {
            Ok(default_value) => there(completed(alloc, rule, default_value)),
            Err(error) => Err(error),
        },
        None => Ok(None),
    }
}

// The parameters with that of a symbol.
fn with_rule(
    alloc: Global,
    table: &Table,
    number: usize,
    rule: &Option<Parameter>,
    all: ListOf<Parameter>,
) -> Result<ListOf<Parameter>, OutOfMemory>
    requires filled { IsFilled table.now }
    requires sound { IsSound (file_in table.now) }
    requires fits { DefaultsFit table.now }
    requires there { is_some rule.now ≡ is_parameter (symbol_kind (file_in table.now) number) }
    requires name { (p : Parameter) → rule.now ≡ Some p → symbol_name (file_in table.now) number ≡ Some p.name }
    ensures { IfOk result (IsNext parameter_name (IsCompleted table.now rule.now)
        (symbol_name (file_in table.now) number) (parameter_at table.now number) all) }
{
    match parameter_of(alloc, table, number, rule) {
        Ok(parameter) => with_optional(all, parameter),
        Err(_) => lacks(all),
    }
}

/// The parameters of the template of a file, with a table of all its declarations, in byte order of their names.
/// `rules` has at the number of each symbol that is a parameter its name, its type, the values that are allowed, its
/// bounds and its metadata; its default is not looked at.
///
/// # Errors
///
/// `OutOfMemory`.
pub fn parameters(
    alloc: Global,
    table: &Table,
    rules: &[Option<Parameter>],
) -> Result<ListOf<Parameter>, OutOfMemory>
    requires filled { IsFilled table.now }
    requires sound { IsSound (file_in table.now) }
    requires names { SymbolsDiffer table.now }
    requires rules { AreRules table.now rules.now }
    requires fits { DefaultsFit table.now }
    ensures parameters { IfOk result (AreParameters table.now rules.now) }
    ensures order { IfOk result (AreInOrder parameter_name) }
    ensures count { IfOk result (λ xs. length xs ≤ parameter_count table.now) }
{
    let mut all = ListOf::new(alloc);
    for (number, rule) in rules.iter().enumerate() {
        match with_rule(alloc, table, number, rule, all) {
            Ok(more) => all = more,
            Err(error) => return Err(error),
        }
    }
    Ok(all)
}
