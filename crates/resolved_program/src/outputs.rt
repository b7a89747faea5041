// The names of the outputs of a file.
ghost use Rattle.std.specs.Prelude.{◌≡◌, ◌++◌, map, option_map, option_to_list, IfOk, OnOk};
ghost use Rattle.bicep_tree.specs.View as view;
ghost use Rattle.bicep_symbols.specs.Outputs as spec;
ghost use Rattle.resolved_program.specs.Programs.{output_text};

use arm_value::{OutOfMemory, Text};
use bicep_tree::{Declaration, Statement};
use std::alloc::Global;

// The name of the output that a statement declares.
#[tactic(auto, using(bicep_tree::proofs::ViewLemmas::structs))]
fn output_of(statement: &Statement) -> Option<&Text>
    ensures { option_map (λ t. t.now) result
        ≡ option_map output_text (spec.output_of (view.statement_of statement.now)) }
{
    match &statement.declaration {
        Declaration::Output(_, name, _, _) => Some(&name.text),
        Declaration::Metadata(_, _, _)
        | Declaration::TargetScope(_, _)
        | Declaration::Param(_, _, _)
        | Declaration::ParamWith(_, _, _, _)
        | Declaration::Var(_, _, _)
        | Declaration::Resource(_)
        | Declaration::Module(_, _, _, _) => None,
    }
}

// Puts a copy of a name last, where there is one.
fn push_some(alloc: Global, names: &mut Vec<Text>, name: Option<&Text>) -> Result<(), OutOfMemory>
    ensures { OnOk result (names.new.items
        ≡ names.old.items ++ option_to_list (option_map (λ t. t.now) name.entry)) }
{
    match name {
        Some(name) => {
            names.push(name.copy(alloc)?)?;
            Ok(())
        }
        None => Ok(()),
    }
}

/// The names of the outputs of a file in source order.
pub(crate) fn output_texts(alloc: Global, file: &[Statement]) -> Result<Vec<Text>, OutOfMemory>
    ensures { IfOk result (λ v. v.items ≡ map output_text (spec.outputs_of (view.file_of file.now))) }
{
    let mut names = Vec::new(alloc);
    for statement in file {
        push_some(alloc, &mut names, output_of(statement))?;
    }
    Ok(names)
}
