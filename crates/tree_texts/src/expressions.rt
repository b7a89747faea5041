//! The texts of expressions.
ghost use Rattle.std.specs.Prelude.{option_map};
ghost use Rattle.arm_expr.specs.Print.{printed};
ghost use Rattle.arm_expr.specs.Tree.{Tree};
ghost use Rattle.emitted_parts.specs.Built.{Is, IsText};

use crate::turns::{copy_index, followed, run};
use arm_expr::{Expr, text_in_brackets};
use arm_value::{OutOfMemory, Text};
use bicep_resolved::Source;
use emitted_expressions::{Declarations, Turn, emitted};
use emitted_parts::calls::call_one;
use emitted_parts::letting_go;
use std::alloc::Global;
use tree_building::Texts;

/// The expressions of a file, by what its declarations become.
#[derive(Clone, Copy)]
pub struct Expressions<'a, K> {
    /// What they become.
    pub declarations: &'a K,
}

/// The text of an expression that was made, in brackets.
pub fn printed_text(alloc: Global, made: Result<Expr, OutOfMemory>) -> Result<Text, OutOfMemory>
    ensures { (t : Tree) → Is t made → IsText (printed t) result }
{
    match made {
        Ok(e) => letting_go(text_in_brackets(alloc, &e), e),
        Err(error) => Err(error),
    }
}

impl<'a, K: Declarations> Texts for Expressions<'a, K> {
    ghost sight = { λ x. K.sight x.declarations.now };

    fn text(&self, alloc: Global, e: &Source, turns: &[Turn]) -> Result<Text, OutOfMemory> {
        printed_text(alloc, emitted(alloc, self.declarations, e, turns))
    }

    fn count(&self, alloc: Global, over: &Source, turns: &[Turn]) -> Result<Text, OutOfMemory> {
        let over = emitted(alloc, self.declarations, over, turns);
        printed_text(alloc, call_one(alloc, "length", over))
    }

    fn inside(
        &self,
        alloc: Global,
        name: Option<&Text>,
        over: &Source,
        turns: &[Turn],
    ) -> Result<Vec<Turn>, OutOfMemory> {
        let over = emitted(alloc, self.declarations, over, turns);
        followed(alloc, run(alloc, over, copy_index(alloc, name)), turns)
    }
}
