// Names that are given twice in the objects and loops of a file.
ghost use Rattle.std.specs.Prelude.{◌≡◌, IfOk};
ghost use Rattle.bicep_tree.specs.View as view;
ghost use Rattle.bicep_members.specs.Files as spec;

use crate::expressions::{repeated_in, repeated_in_value};
use crate::modules::repeated_in_module;
use crate::resources::{repeated_in_decorators, repeated_in_resource};
use arm_value::OutOfMemory;
use bicep_tree::{Declaration, Statement};
use std::alloc::Global;

fn repeated_in_declaration(
    alloc: Global,
    declaration: &Declaration,
) -> Result<Option<usize>, OutOfMemory>
    ensures { IfOk result (λ o. o ≡ spec.repeated_in_declaration (view.declaration_of declaration.now)) }
{
    match declaration {
        Declaration::Metadata(_, _, e)
        | Declaration::TargetScope(_, e)
        | Declaration::ParamWith(_, _, _, e) => repeated_in(alloc, e),
        Declaration::Param(_, _, _) => Ok(None),
        Declaration::Var(_, _, value) | Declaration::Output(_, _, _, value) => {
            repeated_in_value(alloc, value)
        }
        Declaration::Resource(resource) => repeated_in_resource(alloc, resource),
        Declaration::Module(_, _, _, body) => repeated_in_module(alloc, body),
    }
}

fn repeated_in_statement(alloc: Global, statement: &Statement) -> Result<Option<usize>, OutOfMemory>
    ensures { IfOk result (λ o. o ≡ spec.repeated_in_statement (view.statement_of statement.now)) }
{
    match repeated_in_decorators(alloc, statement.decorators.as_slice())? {
        Some(at) => Ok(Some(at)),
        None => repeated_in_declaration(alloc, &statement.declaration),
    }
}

/// The offset of the first name that is given twice in an object or a loop of a file, in bytes: that of the second of
/// two properties of one object, or of the index of a loop.
///
/// # Errors
///
/// `OutOfMemory`.
pub fn repeated_member(alloc: Global, file: &[Statement]) -> Result<Option<usize>, OutOfMemory>
    ensures { IfOk result (λ o. o ≡ spec.repeated_member (view.file_of file.now)) }
{
    for statement in file {
        match repeated_in_statement(alloc, statement)? {
            Some(at) => return Ok(Some(at)),
            None => {}
        }
    }
    Ok(None)
}
