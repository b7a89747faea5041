// The expressions that texts of templates spell.
ghost use Rattle.std.specs.Prelude.{◌≡◌, option_map, IfOk};
ghost use Rattle.arm_expr.specs.View.{tree_of};
ghost use Rattle.arm_eval.specs.Text.{expression_of};

use arm_expr::{Expr, ExprFault, read};
use arm_value::{OutOfMemory, Text};
use std::alloc::{AllocError, Global};

/// The expression that a text spells, where it is within the limits.
pub(crate) fn expression_of(alloc: Global, text: &Text) -> Result<Option<Expr>, OutOfMemory>
    ensures { IfOk result (λ e. option_map tree_of e ≡ expression_of text.now) }
{
    match read(alloc, text.as_str()) {
        Ok(e) => Ok(Some(e)),
        Err(ExprFault::OutOfMemory) => Err(AllocError),
        Err(ExprFault::TooLong) => Ok(None),
        Err(ExprFault::NotAnExpression) => Ok(None),
        Err(ExprFault::TooDeep) => Ok(None),
    }
}
