// That the parts of a file's declarations fit their places.
ghost use Rattle.std.specs.Prelude.{◌≡◌, map, option_map};
ghost use Rattle.bicep_tree.specs.View.{file_of};
ghost use Rattle.bicep_declared.specs.View.{body_tree, declared_tree, output_tree, file_tree};
ghost use Rattle.bicep_program.specs.Program.{program_file};
ghost use Rattle.bicep_typing.specs.Names.{types_in};
ghost use Rattle.bicep_type_faults.specs.Files as spec;
ghost use Rattle.bicep_type_faults.specs.Entries.{kind_of};

use crate::fields::{module_fields_fit, resource_fields_fit};
use crate::places::{
    condition_fits, expression_fits, kinds_of, loop_fits, value_fits, value_typed,
};
use bicep_declared::{Declared, DeclaredBody, DeclaredFile, DeclaredOutput};
use bicep_names::Kind;
use bicep_program::SourceFile;
use bicep_signatures::ValueType;
use bicep_symbols::Entry;
use bicep_tree::Statement;
use bicep_typing::Fitting;

// The loop and the condition of a body, and then its fields.
fn body_fits(
    symbols: &[ValueType],
    outputs: &[Vec<ValueType>],
    body: &DeclaredBody,
    fields: Fitting,
) -> Fitting
    ensures { result ≡ spec.body_fits (types_in symbols.now outputs.now) (body_tree body.now) fields }
{
    match loop_fits(symbols, outputs, &body.each) {
        Ok(()) => {}
        Err(fault) => return Err(fault),
    }
    match condition_fits(symbols, outputs, &body.condition) {
        Ok(()) => fields,
        Err(fault) => Err(fault),
    }
}

// The file of that number.
#[tactic(auto, using(bicep_typing::proofs::CallLemmas::gets))]
fn file_at(files: &[SourceFile], number: usize) -> Option<&[Statement]>
    ensures { option_map (λ f. file_of f.now) result ≡ spec.file_at (map program_file files.now) number }
{
    match files.get(number) {
        Some(file) => Some(file.file.as_slice()),
        None => None,
    }
}

// The file of a module, by the kind of its symbol.
fn file_named(files: &[SourceFile], kind: Kind) -> Option<&[Statement]>
    ensures { option_map (λ f. file_of f.now) result ≡ spec.file_of (map program_file files.now) kind }
{
    match kind {
        Kind::Module(number) | Kind::ModuleLoop(number) => file_at(files, number),
        Kind::Parameter | Kind::Variable | Kind::Resource(_) | Kind::ResourceLoop(_) => None,
    }
}

// The body of a resource.
fn resource_fits(symbols: &[ValueType], outputs: &[Vec<ValueType>], body: &DeclaredBody) -> Fitting
    ensures { result ≡ spec.body_fits (types_in symbols.now outputs.now) (body_tree body.now)
        (spec.resource_fields_fit (types_in symbols.now outputs.now) (body_tree body.now).fields) }
{
    let fields = resource_fields_fit(symbols, outputs, &body.fields);
    body_fits(symbols, outputs, body, fields)
}

// The body of a module, whose file is the one that is given.
fn module_fits(
    symbols: &[ValueType],
    outputs: &[Vec<ValueType>],
    file: Option<&[Statement]>,
    body: &DeclaredBody,
) -> Fitting
    ensures { result ≡ spec.body_fits (types_in symbols.now outputs.now) (body_tree body.now)
        (spec.module_fields_fit (types_in symbols.now outputs.now)
        (option_map (λ f. file_of f.now) file.entry) (body_tree body.now).fields) }
{
    let fields = module_fields_fit(symbols, outputs, file, &body.fields);
    body_fits(symbols, outputs, body, fields)
}

// A declaration whose symbol is of that kind.
fn declaration_fits(
    files: &[SourceFile],
    symbols: &[ValueType],
    outputs: &[Vec<ValueType>],
    kind: Kind,
    declared: &Declared,
) -> Fitting
    ensures { result ≡ spec.declaration_fits (map program_file files.now) (types_in symbols.now outputs.now)
        kind (declared_tree declared.now) }
{
    match declared {
        Declared::Parameter(_, _) => Ok(()),
        Declared::ParameterWith(_, kind, default) => {
            expression_fits(symbols, outputs, kinds_of(*kind), default)
        }
        Declared::Variable(_, value) => value_typed(symbols, outputs, value),
        Declared::Resource(_, _, _, body) => resource_fits(symbols, outputs, body),
        Declared::Module(_, body) => {
            module_fits(symbols, outputs, file_named(files, kind), body)
        }
    }
}

// The declarations of a file beside the kinds of their symbols.
fn declarations_fit(
    files: &[SourceFile],
    symbols: &[ValueType],
    outputs: &[Vec<ValueType>],
    entries: &[Entry],
    declarations: &[Declared],
) -> Fitting
    ensures { result ≡ spec.declarations_fit (map program_file files.now) (types_in symbols.now outputs.now)
        (map kind_of entries.now) (map declared_tree declarations.now) }
{
    let mut rest = declarations;
    for entry in entries {
        match rest {
            [] => return Ok(()),
            [first, after @ ..] => {
                match declaration_fits(files, symbols, outputs, entry.kind, first) {
                    Ok(()) => {}
                    Err(fault) => return Err(fault),
                }
                rest = after;
            }
        }
    }
    Ok(())
}

// An output.
fn output_fits(
    symbols: &[ValueType],
    outputs: &[Vec<ValueType>],
    output: &DeclaredOutput,
) -> Fitting
    ensures { result ≡ spec.output_fits (types_in symbols.now outputs.now) (output_tree output.now) }
{
    value_fits(symbols, outputs, kinds_of(output.kind), &output.value)
}

fn outputs_fit(symbols: &[ValueType], outputs: &[Vec<ValueType>], all: &[DeclaredOutput]) -> Fitting
    ensures { result ≡ spec.outputs_fit (types_in symbols.now outputs.now) (map output_tree all.now) }
{
    for output in all {
        match output_fits(symbols, outputs, output) {
            Ok(()) => {}
            Err(fault) => return Err(fault),
        }
    }
    Ok(())
}

/// That all parts of a file fit their places, or the offset of the first that does not, by the files of its program,
/// the types of its symbols, the types of the outputs of these files and its symbols. It takes no memory.
#[tactic(auto, unfolding(crate::specs::Files::file_fits))]
pub fn file_fits(
    files: &[SourceFile],
    symbols: &[ValueType],
    outputs: &[Vec<ValueType>],
    entries: &[Entry],
    file: &DeclaredFile,
) -> Fitting
    ensures { result ≡ spec.file_fits (map program_file files.now) (types_in symbols.now outputs.now)
        (map kind_of entries.now) (file_tree file.now) }
{
    match declarations_fit(files, symbols, outputs, entries, &file.declarations) {
        Ok(()) => outputs_fit(symbols, outputs, &file.outputs),
        Err(fault) => Err(fault),
    }
}
