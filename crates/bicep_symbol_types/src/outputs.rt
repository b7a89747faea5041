// The types of the outputs of a file.
ghost use Rattle.std.specs.Prelude.{◌≡◌, ◌++◌, option_to_list, IfOk, OnOk};
ghost use Rattle.bicep_tree.specs.View as view;
ghost use Rattle.bicep_symbol_types.specs.Outputs as spec;

use crate::symbols::type_named;
use arm_value::OutOfMemory;
use bicep_signatures::ValueType;
use bicep_tree::{Declaration, Statement};
use std::alloc::Global;

// The type of the output that a statement declares.
#[tactic(auto, using(bicep_tree::proofs::ViewLemmas::structs))]
fn output_type(statement: &Statement) -> Option<ValueType>
    ensures { result ≡ spec.output_type (view.statement_of statement.now) }
{
    match &statement.declaration {
        Declaration::Output(_, _, name, _) => Some(type_named(*name)),
        Declaration::Metadata(_, _, _)
        | Declaration::TargetScope(_, _)
        | Declaration::Param(_, _, _)
        | Declaration::ParamWith(_, _, _, _)
        | Declaration::Var(_, _, _)
        | Declaration::Resource(_)
        | Declaration::Module(_, _, _, _) => None,
    }
}

// Adds the type of the output that a statement declares.
fn push_output(types: &mut Vec<ValueType>, statement: &Statement) -> Result<(), OutOfMemory>
    ensures { OnOk result (types.new.items
        ≡ types.old.items ++ option_to_list (spec.output_type (view.statement_of statement.now))) }
{
    match output_type(statement) {
        Some(found) => {
            types.push(found)?;
            Ok(())
        }
        None => Ok(()),
    }
}

/// The types of the outputs of a file in source order.
pub fn output_types(alloc: Global, file: &[Statement]) -> Result<Vec<ValueType>, OutOfMemory>
    ensures { IfOk result (λ ts. ts.items ≡ spec.output_types (view.file_of file.now)) }
{
    let mut types = Vec::new(alloc);
    for statement in file {
        push_output(&mut types, statement)?;
    }
    Ok(types)
}
