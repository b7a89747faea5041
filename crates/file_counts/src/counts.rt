//! What is counted, and the limits.
ghost use Rattle.std.specs.Prelude.{◌≡◌, ◌<◌, Some, map};
ghost use Rattle.bicep_symbols.specs.Entries.{symbol_of};
ghost use Rattle.bicep_declared.specs.View.{declared_tree, output_tree};
ghost use Rattle.bicep_meaning.specs.Instances as instances;
ghost use Rattle.declared_table.specs.Seen.{file_in};
ghost use Rattle.file_counts.specs.Counts as spec;

use bicep_declared::{Declared, DeclaredOutput};
use bicep_names::Kind;
use bicep_symbols::Entry;
use declared_table::Table;
use template_parts::Which;

// One more, where it is one.
fn with_one(total: usize, is_one: bool) -> usize
    requires { total < 18446744073709551615 }
    ensures { result ≡ spec.with_one total is_one }
{
    if is_one { total + 1 } else { total }
}

// Whether a symbol is a parameter.
fn is_parameter(kind: Kind) -> bool
    ensures { result ≡ instances.is_parameter (Some kind) }
{
    match kind {
        Kind::Parameter => true,
        Kind::Variable
        | Kind::Resource(_)
        | Kind::ResourceLoop(_)
        | Kind::Module(_)
        | Kind::ModuleLoop(_) => false,
    }
}

fn is_parameter_at(entries: &[Entry], number: usize) -> bool
    ensures { result ≡ spec.is_parameter_at (map symbol_of entries.now) number }
{
    match entries.get(number) {
        Some(entry) => is_parameter(entry.kind),
        None => false,
    }
}

// How many of the symbols of a file are parameters.
fn parameters(table: &Table, entries: &[Entry]) -> usize
    requires { map symbol_of entries.now ≡ (file_in table.now).symbols }
    ensures { result ≡ spec.parameters (file_in table.now) }
{
    let mut total = 0;
    for number in 0..entries.len() {
        total = with_one(total, is_parameter_at(entries, number));
    }
    total
}

// Whether a declaration is that of a variable, which has an entry.
fn is_entry(table: &Table, number: usize, declared: &Declared) -> bool
    ensures { result ≡ spec.is_entry_by (file_in table.now) number (Some (declared_tree declared.now)) }
{
    match declared {
        Declared::Variable(_, _) => table.is_entry(number),
        Declared::Parameter(_, _)
        | Declared::ParameterWith(_, _, _)
        | Declared::Resource(_, _, _, _)
        | Declared::Module(_, _) => false,
    }
}

fn is_entry_at(table: &Table, declarations: &[Declared], number: usize) -> bool
    ensures { result ≡ spec.is_entry_at (file_in table.now) (map declared_tree declarations.now) number }
{
    match declarations.get(number) {
        Some(declared) => is_entry(table, number, declared),
        None => false,
    }
}

// How many variables of a file have an entry.
fn variables(table: &Table, declarations: &[Declared]) -> usize
    requires { map declared_tree declarations.now ≡ (file_in table.now).declared.declarations }
    ensures { result ≡ spec.variables (file_in table.now) }
{
    let mut total = 0;
    for number in 0..declarations.len() {
        total = with_one(total, is_entry_at(table, declarations, number));
    }
    total
}

// Whether a declaration is that of a resource that is put, or of a module.
fn is_put(declared: &Declared) -> bool
    ensures { result ≡ spec.is_put_by (Some (declared_tree declared.now)) }
{
    match declared {
        Declared::Resource(_, _, existing, _) => !*existing,
        Declared::Module(_, _) => true,
        Declared::Parameter(_, _) | Declared::ParameterWith(_, _, _) | Declared::Variable(_, _) =>
            false,
    }
}

fn is_put_at(declarations: &[Declared], number: usize) -> bool
    ensures { result ≡ spec.is_put_at (map declared_tree declarations.now) number }
{
    match declarations.get(number) {
        Some(declared) => is_put(declared),
        None => false,
    }
}

// How many resources of a file are put, with modules.
fn resources(table: &Table, declarations: &[Declared]) -> usize
    requires { map declared_tree declarations.now ≡ (file_in table.now).declared.declarations }
    ensures { result ≡ spec.resources (file_in table.now) }
{
    let mut total = 0;
    for number in 0..declarations.len() {
        total = with_one(total, is_put_at(declarations, number));
    }
    total
}

// How many outputs a file has.
fn outputs(table: &Table, outputs: &[DeclaredOutput]) -> usize
    requires { map output_tree outputs.now ≡ (file_in table.now).declared.outputs }
    ensures { result ≡ spec.outputs (file_in table.now) }
{
    outputs.len()
}

// The number where it is beyond its limit, else another that is beyond its own.
fn beyond(
    which: Which,
    limit: usize,
    count: usize,
    other: Option<(Which, u64)>,
) -> Option<(Which, u64)>
    ensures { result ≡ spec.beyond which limit count other }
{
    if limit < count {
        Some((which, count as u64))
    } else {
        other
    }
}

/// The first of these numbers that is beyond its limit, with the number, or none: the parameters, of which a template
/// has at most 256, the variables, 512, the outputs, 64, and the resources, 800. A variable that reads a state has no
/// entry in the template, and a resource that exists already is none of it; a loop counts once.
pub fn first_beyond(table: &Table) -> Option<(Which, u64)>
    ensures { result ≡ spec.first_beyond (file_in table.now) }
{
    let file = table.file();
    let declarations = file.declared.declarations.as_slice();
    let outputs = outputs(table, file.declared.outputs.as_slice());
    let parameters = parameters(table, file.entries.as_slice());
    let last = beyond(Which::Resources, 800, resources(table, declarations), None);
    let third = beyond(Which::Outputs, 64, outputs, last);
    let second = beyond(Which::Variables, 512, variables(table, declarations), third);
    beyond(Which::Parameters, 256, parameters, second)
}
