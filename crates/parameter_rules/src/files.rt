//! The parameters of a file.
ghost use Rattle.std.specs.Prelude.{◌≡◌, ◌≤◌, ◌++◌, ◌∷◌, [], ℕ, None, map, slice_get, slice_index_or, option_map};
ghost use Rattle.std.specs.Prelude.{IfOk};
ghost use Rattle.bicep_declared.specs.View.{declared_tree};
ghost use Rattle.bicep_meaning.specs.Files.{SourceFile};
ghost use Rattle.bicep_symbols.specs.Entries.{symbol_of};
ghost use Rattle.bicep_tree.specs.Nesting.{deepest_decorator, file_nesting};
ghost use Rattle.bicep_tree.specs.Tree as tree;
ghost use Rattle.bicep_tree.specs.View as view;
ghost use Rattle.symbol_decorators.specs.View.{decorators_at};
ghost use Rattle.parameter_rules.specs.Files as spec;
ghost use Rattle.parameter_rules.specs.Rules.{type_by, type_of, or_no};

use crate::literals::lacks;
use crate::rules::parameter;
use arm_value::OutOfMemory;
use bicep_declared::Declared;
use bicep_symbols::Entry;
use bicep_tree::{Decorator, Statement, TypeName};
use std::alloc::Global;
use symbol_decorators::{Decorated, decorators};
use template_parts::Parameter;

// The type of a parameter.
fn type_of(declaration: &Declared) -> Option<TypeName>
    ensures { result ≡ type_by (declared_tree declaration.now) }
{
    match declaration {
        Declared::Parameter(_, kind) => Some(*kind),
        Declared::ParameterWith(_, kind, _) => Some(*kind),
        Declared::Variable(_, _) | Declared::Resource(_, _, _, _) | Declared::Module(_, _) => None,
    }
}

// The type of the declaration of a number, where it is a parameter.
fn type_at(declarations: &[Declared], number: usize) -> Option<TypeName>
    ensures { result ≡ type_of (slice_get (map declared_tree declarations.now) number) }
{
    match declarations.get(number) {
        Some(declaration) => type_of(declaration),
        None => None,
    }
}

// The decorators of the symbol of a number.
fn decorators_of<'a>(symbols: &[Decorated<'a>], number: usize) -> &'a [Decorator]
    ensures { tree.decorators (map view.decorator_of result.now)
        ≡ or_no (slice_get (map decorators_at symbols.now) number) }
{
    match symbols.get(number) {
        Some(symbol) => symbol.decorators,
        None => &[],
    }
}

// The parameter of a symbol of that type and with these decorators.
fn named(
    alloc: Global,
    entry: Option<&Entry>,
    kind: TypeName,
    decorators: &[Decorator],
) -> Result<Option<Parameter>, OutOfMemory>
    requires { deepest_decorator (tree.decorators (map view.decorator_of decorators.now)) ≤ 119 }
    ensures { IfOk result (spec.IsNamed (option_map (λ e. e.now.name) entry.entry) kind
        (tree.decorators (map view.decorator_of decorators.now))) }
{
    match entry {
        Some(entry) => Ok(Some(parameter(alloc, &entry.name, kind, decorators)?)),
        None => Ok(None),
    }
}

// The parameter of a number.
fn parameter_at(
    alloc: Global,
    entries: &[Entry],
    declarations: &[Declared],
    symbols: &[Decorated],
    number: usize,
) -> Result<Option<Parameter>, OutOfMemory>
    requires { spec.AllNest (map decorators_at symbols.now) }
    ensures { IfOk result (spec.IsParameter (map symbol_of entries.now) (map declared_tree declarations.now)
        (map decorators_at symbols.now) number) }
{
    match type_at(declarations, number) {
        Some(kind) => named(
            alloc,
            entries.get(number),
            kind,
            decorators_of(symbols, number),
        ),
        None => Ok(None),
    }
}

// The parameters with one more.
fn with_last(
    found: Vec<Option<Parameter>>,
    parameter: Option<Parameter>,
) -> Result<Vec<Option<Parameter>>, OutOfMemory>
    ensures { IfOk result (λ v. v.items ≡ found.items ++ parameter ∷ []) }
{
    let mut found = found;
    match found.push(parameter) {
        Ok(()) => Ok(found),
        Err(_) => lacks(found),
    }
}

// The parameters of the symbols with these declarations.
fn of_symbols(
    alloc: Global,
    entries: &[Entry],
    declarations: &[Declared],
    symbols: &[Decorated],
) -> Result<Vec<Option<Parameter>>, OutOfMemory>
    requires { spec.AllNest (map decorators_at symbols.now) }
    ensures { IfOk result (λ v. (n : ℕ) → spec.IsParameter (map symbol_of entries.now)
        (map declared_tree declarations.now) (map decorators_at symbols.now) n (slice_index_or v.items n None)) }
{
    let mut found = Vec::new(alloc);
    for number in 0..declarations.len() {
        match parameter_at(alloc, entries, declarations, symbols, number) {
            Ok(parameter) => found = with_last(found, parameter)?,
            Err(_) => return lacks(found),
        }
    }
    Ok(found)
}

/// The parameters of the template of a file, without their defaults, by the numbers of their symbols; none for what is
/// no parameter.
///
/// # Errors
///
/// `OutOfMemory`.
pub fn parameters(
    alloc: Global,
    entries: &[Entry],
    declarations: &[Declared],
    file: &[Statement],
) -> Result<Vec<Option<Parameter>>, OutOfMemory>
    requires { file_nesting (view.file_of file.now) ≤ 119 }
    ensures { (f : SourceFile) → f.symbols ≡ map symbol_of entries.now
        → f.declared.declarations ≡ map declared_tree declarations.now
        → IfOk result (λ v. (n : ℕ) → spec.IsParameterAt (view.file_of file.now) f n (slice_index_or v.items n None)) }
{
    let symbols = decorators(alloc, file)?;
    of_symbols(alloc, entries, declarations, symbols.as_slice())
}
