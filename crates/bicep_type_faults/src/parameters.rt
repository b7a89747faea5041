// The types of the parameters of a file.
ghost use Rattle.std.specs.Prelude.{◌≡◌, Some, None, option_map, if◌then◌else◌};
ghost use Rattle.arm_value.specs.Look.{is_same_folded};
ghost use Rattle.bicep_tree.specs.View.{declaration_of, file_of};
ghost use Rattle.bicep_type_faults.specs.Parameters as spec;

use crate::places::kinds_of;
use arm_value::Text;
use bicep_signatures::Kinds;
use bicep_tree::{Declaration, Name, Statement, TypeName};

// The type, where the parameter has the name, whatever the case of its ASCII letters.
fn where_named(name: &Text, parameter: &Name, kind: TypeName) -> Option<TypeName>
    ensures { result ≡ (if is_same_folded name.now parameter.now.text then Some kind else None) }
{
    if name.is_same_ignore_case(&parameter.text) {
        Some(kind)
    } else {
        None
    }
}

// The type of the parameter of that name, if the declaration is one.
fn named_by(name: &Text, declaration: &Declaration) -> Option<TypeName>
    ensures { result ≡ spec.named_by name.now (declaration_of declaration.now) }
{
    match declaration {
        Declaration::Param(_, parameter, kind) => where_named(name, parameter, *kind),
        Declaration::ParamWith(_, parameter, kind, _) => where_named(name, parameter, *kind),
        Declaration::Metadata(_, _, _)
        | Declaration::TargetScope(_, _)
        | Declaration::Var(_, _, _)
        | Declaration::Output(_, _, _, _)
        | Declaration::Resource(_)
        | Declaration::Module(_, _, _, _) => None,
    }
}

// The type of the first parameter of that name of a file.
fn parameter_type(name: &Text, file: &[Statement]) -> Option<TypeName>
    ensures { result ≡ spec.parameter_type name.now (file_of file.now) }
{
    for statement in file {
        match named_by(name, &statement.declaration) {
            Some(found) => return Some(found),
            None => {}
        }
    }
    None
}

// The kinds of values of the parameter of that name; all where the file has no such parameter.
pub(crate) fn parameter_kinds(file: Option<&[Statement]>, name: &Text) -> Kinds
    ensures { result ≡ spec.parameter_kinds (option_map (λ f. file_of f.now) file.entry) name.now }
{
    let Some(file) = file else {
        return Kinds::Anything;
    };
    match parameter_type(name, file) {
        Some(found) => kinds_of(found),
        None => Kinds::Anything,
    }
}
