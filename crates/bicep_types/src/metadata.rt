// The values of metadata.
ghost use Rattle.std.specs.Prelude.{◌≡◌, map};
ghost use Rattle.bicep_tree.specs.View as view;
ghost use Rattle.bicep_tree.specs.View.{tree_of};
ghost use Rattle.bicep_program.specs.Program.{program_file};
ghost use Rattle.resolved_program.specs.Faults.{first_in};
ghost use Rattle.bicep_types.specs.Metadata as spec;
ghost use Rattle.bicep_types.specs.Faults.{metadata_place};

use bicep_decorators::is_literal;
use bicep_program::SourceFile;
use bicep_tree::{Declaration, Expr, Statement};

// The offset of an expression that is no literal.
fn no_literal(e: &Expr) -> Option<usize>
    ensures { result ≡ spec.no_literal (tree_of e.now) }
{
    if is_literal(e) { None } else { Some(e.at()) }
}

// The value of the metadata that a statement declares, where it is no literal.
#[tactic(auto, using(bicep_tree::proofs::ViewLemmas::structs))]
fn bad_value(statement: &Statement) -> Option<usize>
    ensures { result ≡ spec.bad_value (view.statement_of statement.now) }
{
    match &statement.declaration {
        Declaration::Metadata(_, _, value) => no_literal(value),
        Declaration::TargetScope(_, _)
        | Declaration::Param(_, _, _)
        | Declaration::ParamWith(_, _, _, _)
        | Declaration::Var(_, _, _)
        | Declaration::Output(_, _, _, _)
        | Declaration::Resource(_)
        | Declaration::Module(_, _, _, _) => None,
    }
}

// The first value of metadata of a file that is no literal.
fn bad_metadata(file: &[Statement]) -> Option<usize>
    ensures { result ≡ spec.bad_metadata (view.file_of file.now) }
{
    for statement in file {
        match bad_value(statement) {
            Some(at) => return Some(at),
            None => {}
        }
    }
    None
}

/// The first value of metadata that is no literal, and the number of its file.
pub(crate) fn first_metadata(files: &[SourceFile]) -> Option<(usize, usize)>
    ensures { result ≡ first_in metadata_place (map program_file files.now) }
{
    for (number, file) in files.iter().enumerate() {
        match bad_metadata(file.file.as_slice()) {
            Some(at) => return Some((number, at)),
            None => {}
        }
    }
    None
}
