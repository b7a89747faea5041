//! The variables of a template.
ghost use Rattle.std.specs.Prelude.{◌≡◌, ◌≤◌, Some, IfOk, length, map, true, false};
ghost use Rattle.bicep_resolved.specs.View.{value_of};
ghost use Rattle.bicep_declared.specs.View.{declared_tree};
ghost use Rattle.bicep_meaning.specs.Files.{declaration, symbol_name};
ghost use Rattle.emitted_values.specs.Sound.{IsSound};
ghost use Rattle.emitted_values.specs.Files.{IsVariable};
ghost use Rattle.emitted_values.specs.Seen.{file_in, files_in};
ghost use Rattle.emitted_values.specs.Filled.{IsFilled};
ghost use Rattle.file_lists.specs.Found.{IsPart};
ghost use Rattle.file_lists.specs.Lists as lists;
ghost use Rattle.file_lists.specs.Lists.{AreDivided, IsDivided, AreGrown, variable_name, entry_at, AreVariables};
ghost use Rattle.file_lists.specs.Lists.{VariablesFit, SymbolsDiffer, IsNextVariable, variable_count};

use crate::growing::{joined, there, with_last};
use arm_value::{ListOf, OutOfMemory};
use bicep_declared::Declared;
use bicep_resolved::SourceValue;
use emitted_parts::lacks;
use emitted_values::{Table, variable};
use named_parts::with_part;
use std::alloc::Global;
use template_parts::{Content, Variable};

// Whether a loop gives the value.
fn is_loop(content: &Content) -> bool
    ensures { result ≡ lists.is_loop content.now }
{
    match content {
        Content::Value(_) => false,
        Content::Copy(_, _) => true,
    }
}

// The lists of variables with one more among those that no loop gives.
fn with_plain(
    plain: ListOf<Variable>,
    loops: ListOf<Variable>,
    variable: Variable,
) -> Result<(ListOf<Variable>, ListOf<Variable>), OutOfMemory>
    ensures { IfOk result (IsDivided false variable plain loops) }
{
    match with_part(plain, variable) {
        Ok(plain) => Ok((plain, loops)),
        Err(_) => lacks(loops),
    }
}

// The lists of variables with one more among those that loops give.
fn with_loop(
    plain: ListOf<Variable>,
    loops: ListOf<Variable>,
    variable: Variable,
) -> Result<(ListOf<Variable>, ListOf<Variable>), OutOfMemory>
    ensures { IfOk result (IsDivided true variable plain loops) }
{
    match with_last(loops, variable) {
        Ok(loops) => Ok((plain, loops)),
        Err(_) => lacks(plain),
    }
}

// The lists of variables with one more.
fn with_variable(
    plain: ListOf<Variable>,
    loops: ListOf<Variable>,
    variable: Variable,
) -> Result<(ListOf<Variable>, ListOf<Variable>), OutOfMemory>
    ensures { IfOk result (IsDivided (lists.is_loop variable.content) variable plain loops) }
{
    if is_loop(&variable.content) {
        with_loop(plain, loops, variable)
    } else {
        with_plain(plain, loops, variable)
    }
}

// The lists of variables with one more, where it is there.
fn with_optional(
    plain: ListOf<Variable>,
    loops: ListOf<Variable>,
    variable: Option<Variable>,
) -> Result<(ListOf<Variable>, ListOf<Variable>), OutOfMemory>
    ensures { IfOk result (AreGrown variable plain loops) }
{
    match variable {
        Some(variable) => with_variable(plain, loops, variable),
        None => Ok((plain, loops)),
    }
}

// The variable of a symbol that has an entry.
fn entry(
    alloc: Global,
    table: &Table,
    number: usize,
    value: &SourceValue,
) -> Result<Option<Variable>, OutOfMemory>
    requires filled { IsFilled table.now }
    requires sound { IsSound (file_in table.now) }
    requires fits { VariablesFit table.now }
    requires entry { entry_at table.now number ≡ Some (value_of value.now) }
    ensures { IfOk result (IsPart variable_name (IsVariable (files_in table.now) (file_in table.now))
        (symbol_name (file_in table.now) number) (entry_at table.now number)) }
{
    match table.name_of(number) {
        Some(name) => there(variable(alloc, table, name, value)),
        None => Ok(None),
    }
}

// The variable of a declaration, where it is that of a variable that has an entry.
fn variable_of(
    alloc: Global,
    table: &Table,
    number: usize,
    declared: &Declared,
) -> Result<Option<Variable>, OutOfMemory>
    requires filled { IsFilled table.now }
    requires sound { IsSound (file_in table.now) }
    requires fits { VariablesFit table.now }
    requires declared { declaration (file_in table.now) number ≡ Some (declared_tree declared.now) }
    ensures { IfOk result (IsPart variable_name (IsVariable (files_in table.now) (file_in table.now))
        (symbol_name (file_in table.now) number) (entry_at table.now number)) }
{
    match declared {
        Declared::Variable(_, value) => {
            if table.is_entry(number) {
                entry(alloc, table, number, value)
            } else {
                Ok(None)
            }
        }
        Declared::Parameter(_, _)
        | Declared::ParameterWith(_, _, _)
        | Declared::Resource(_, _, _, _)
        | Declared::Module(_, _) => Ok(None),
    }
}

// The lists of variables with that of a declaration.
fn with_declared(
    alloc: Global,
    table: &Table,
    number: usize,
    declared: &Declared,
    plain: ListOf<Variable>,
    loops: ListOf<Variable>,
) -> Result<(ListOf<Variable>, ListOf<Variable>), OutOfMemory>
    requires filled { IsFilled table.now }
    requires sound { IsSound (file_in table.now) }
    requires fits { VariablesFit table.now }
    requires declared { declaration (file_in table.now) number ≡ Some (declared_tree declared.now) }
    ensures { IfOk result (IsNextVariable table.now number plain loops) }
{
    match variable_of(alloc, table, number, declared) {
        Ok(variable) => with_optional(plain, loops, variable),
        Err(_) => lacks((plain, loops)),
    }
}

// The variables of these declarations, which are those of the file.
fn variables_of(
    alloc: Global,
    table: &Table,
    declarations: &[Declared],
) -> Result<ListOf<Variable>, OutOfMemory>
    requires filled { IsFilled table.now }
    requires sound { IsSound (file_in table.now) }
    requires names { SymbolsDiffer table.now }
    requires fits { VariablesFit table.now }
    requires declared { map declared_tree declarations.now ≡ (file_in table.now).declared.declarations }
    ensures variables { IfOk result (AreVariables table.now) }
    ensures divided { IfOk result AreDivided }
    ensures count { IfOk result (λ xs. length xs ≤ variable_count table.now) }
{
    let mut plain = ListOf::new(alloc);
    let mut loops = ListOf::new(alloc);
    for (number, declared) in declarations.iter().enumerate() {
        match with_declared(alloc, table, number, declared, plain, loops) {
            Ok(more) => {
                plain = more.0;
                loops = more.1;
            }
            Err(error) => return Err(error),
        }
    }
    joined(plain, loops)
}

/// The variables of the template of a file, with a table of all its declarations: one for each variable that has an
/// entry. Those that no loop gives come first, in byte order of their names, then those that loops give, in the order
/// of the file.
///
/// # Errors
///
/// `OutOfMemory`.
pub fn variables(alloc: Global, table: &Table) -> Result<ListOf<Variable>, OutOfMemory>
    requires filled { IsFilled table.now }
    requires sound { IsSound (file_in table.now) }
    requires names { SymbolsDiffer table.now }
    requires fits { VariablesFit table.now }
    ensures variables { IfOk result (AreVariables table.now) }
    ensures divided { IfOk result AreDivided }
    ensures count { IfOk result (λ xs. length xs ≤ variable_count table.now) }
{
    variables_of(alloc, table, table.file().declared.declarations.as_slice())
}
