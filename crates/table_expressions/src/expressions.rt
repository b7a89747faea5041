//! Expressions of a file.
ghost use Rattle.std.specs.Prelude.{◌≡◌, IfOk};
ghost use Rattle.arm_expr.specs.View.{tree_of};
ghost use Rattle.bicep_resolved.specs.View.{source_of};
ghost use Rattle.bicep_emission.specs.Emitted.{emitted as emitted_tree};
ghost use Rattle.declaration_laws.specs.Sound.{IsSound};
ghost use Rattle.emitted_parts.specs.Built.{Is};
ghost use Rattle.emitted_expressions.specs.Sight.{frames_of};
ghost use Rattle.declared_table.specs.Seen.{sight, whole_sight, file_in, files_in, whole_in};
ghost use Rattle.table_expressions.specs.Meaning.{MeansTheSame};

use arm_expr::Expr;
use arm_value::OutOfMemory;
use bicep_resolved::Source;
use declared_table::Table;
use emitted_expressions::{Turn, emitted};
use std::alloc::Global;

/// What an expression of a file becomes inside loops, of which the nearest is the first, with a table of all
/// declarations of the file. It recurses as deep as the expression nests.
///
/// # Errors
///
/// `OutOfMemory`, also where what an expression uses is beyond the limits of template expressions.
pub fn expression(
    alloc: Global,
    table: &Table,
    e: &Source,
    turns: &[Turn],
) -> Result<Expr, OutOfMemory>
    requires whole { sight table.now ≡ whole_sight (file_in table.now) (files_in table.now) }
    requires sound { IsSound (file_in table.now) }
    ensures emitted { Is (emitted_tree (file_in table.now) (files_in table.now) (whole_in table.now).scope
        (source_of e.now) (frames_of turns.now)) result }
    ensures meaning { IfOk result (λ t. MeansTheSame (file_in table.now) (files_in table.now) (source_of e.now)
        (frames_of turns.now) (tree_of t)) }
{
    emitted(alloc, table, e, turns)
}
