// Closes operators as far as the next token demands.

ghost use Rattle.std.specs.Prelude.{◌≡◌, ◌∷◌, IfOk};
ghost use Rattle.bicep_machine.specs.Closing.{closed};
ghost use Rattle.bicep_machine.specs.Views.{kept, frame_of, frames_of, Frames};
ghost use Rattle.bicep_machine.specs.Folding.{folded};

use crate::build::{binary_of, conditional_of, prefix_of};
use crate::frame::{Frame, close, open};
use crate::kept::Kept;
use crate::words::level_of;
use arm_value::OutOfMemory;
use bicep_tree::Expr;
use std::alloc::Global;

/// An operand and what is open before it.
#[derive(Drop)]
pub enum Folded {
    /// The operator took it.
    Into(Kept<Box<Expr>>),
    /// What is open stays open.
    Beside(Frame, Kept<Box<Expr>>),
}

// What is open takes the operand, if it is an operator that binds at least as tightly as that level.
fn taken(
    alloc: Global,
    level: usize,
    frame: Frame,
    e: Kept<Box<Expr>>,
) -> Result<Folded, OutOfMemory>
    ensures { IfOk result (λ r. (S : Frames) →
        closed 64 level (kept e) (frame_of frame ∷ S) ≡ folded level r S) }
{
    match frame {
        Frame::Prefixing(at, prefix) => Ok(Folded::Into(prefix_of(alloc, at, prefix, e)?)),
        Frame::Left(operator, left) => {
            if level <= level_of(operator) {
                Ok(Folded::Into(binary_of(alloc, operator, left, e)?))
            } else {
                Ok(Folded::Beside(Frame::Left(operator, left), e))
            }
        }
        Frame::Chosen(condition, first) => {
            if level <= 0 {
                Ok(Folded::Into(conditional_of(alloc, condition, first, e)?))
            } else {
                Ok(Folded::Beside(Frame::Chosen(condition, first), e))
            }
        }
        _ => Ok(Folded::Beside(frame, e)),
    }
}

/// The expression with the operators before it that bind at least as tightly as that level; 0 closes all.
pub fn closed(
    alloc: Global,
    level: usize,
    e: Kept<Box<Expr>>,
    stack: &mut Vec<Frame>,
) -> Result<Kept<Box<Expr>>, OutOfMemory>
    ensures { IfOk result (λ r. closed 64 level (kept e) (frames_of stack.old.items)
        ≡ (kept r, frames_of stack.new.items)) }
{
    let mut whole = e;
    while let Some(frame) = close(stack) {
        match taken(alloc, level, frame, whole)? {
            Folded::Into(more) => whole = more,
            Folded::Beside(frame, operand) => {
                open(stack, frame)?;
                return Ok(operand);
            }
        }
    }
    Ok(whole)
}
