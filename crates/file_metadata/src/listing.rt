//! The decorators of the outputs of a file, in source order.
ghost use Rattle.std.specs.Prelude.{◌≡◌, ◌++◌, ◌∷◌, [], map, IfOk, OnOk};
ghost use Rattle.bicep_tree.specs.Tree as tree;
ghost use Rattle.bicep_tree.specs.View as view;
ghost use Rattle.file_metadata.specs.Outputs as spec;
ghost use Rattle.symbol_decorators.specs.View.{decorators_at};

use arm_value::OutOfMemory;
use bicep_tree::{Declaration, Decorator, Statement};
use std::alloc::Global;
use symbol_decorators::Decorated;

// Adds the decorators of an output.
fn push<'a>(out: &mut Vec<Decorated<'a>>, decorators: &'a Vec<Decorator>) -> Result<(), OutOfMemory>
    ensures { OnOk result (map decorators_at out.new.items
        ≡ map decorators_at out.old.items ++ tree.decorators (map view.decorator_of decorators.now.items) ∷ []) }
{
    out.push(Decorated {
        decorators: decorators.as_slice(),
    })?;
    Ok(())
}

// Adds those of a statement that declares an output.
fn add_statement<'a>(
    out: &mut Vec<Decorated<'a>>,
    statement: &'a Statement,
) -> Result<(), OutOfMemory>
    ensures { OnOk result (map decorators_at out.new.items
        ≡ spec.with_statement (view.statement_of statement.now) (map decorators_at out.old.items)) }
{
    match &statement.declaration {
        Declaration::Output(_, _, _, _) => push(out, &statement.decorators),
        Declaration::Metadata(_, _, _)
        | Declaration::TargetScope(_, _)
        | Declaration::Param(_, _, _)
        | Declaration::ParamWith(_, _, _, _)
        | Declaration::Var(_, _, _)
        | Declaration::Module(_, _, _, _)
        | Declaration::Resource(_) => Ok(()),
    }
}

/// The decorators of the outputs of a file, by their numbers.
pub(crate) fn output_decorators(
    alloc: Global,
    file: &[Statement],
) -> Result<Vec<Decorated<'_>>, OutOfMemory>
    ensures { IfOk result (λ v. map decorators_at v.items ≡ spec.output_decorators (view.file_of file.now)) }
{
    let mut out = Vec::new(alloc);
    for statement in file {
        add_statement(&mut out, statement)?;
    }
    Ok(out)
}
