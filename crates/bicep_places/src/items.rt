// The items of arrays.
#![tactic(auto, using(bicep_machine::proofs::StackLemmas::stacks))]

ghost use Rattle.std.specs.Prelude.{◌≡◌, Some};
ghost use Rattle.bicep_machine.specs.Kept.{of_items};
ghost use Rattle.bicep_machine.specs.Stack.{done};
ghost use Rattle.bicep_machine.specs.Closing.{item_parted, items_closed};
ghost use Rattle.foundation.specs.Stopping.{Gives};
ghost use Rattle.bicep_machine.specs.Views.{kept_items, frames_of, next_of};

use bicep_machine::{Frame, Kept, Next, State, array_of, close, empty, enter, refuse};
use bicep_tree::Expr;
use foundation::Stop;
use std::alloc::Global;

/// Newlines and commas between items.
pub fn part_items(alloc: Global, stack: &mut Vec<Frame>) -> Result<Next, Stop>
    ensures { Gives (λ n. next_of n stack.new.items) result
        (item_parted (frames_of stack.old.items)) }
{
    match close(stack) {
        Some(Frame::Opened(at, was)) => {
            enter(
                Frame::InArray(at, was, empty(alloc)),
                State::Item,
                false,
                stack,
            )
        }
        Some(Frame::InArray(at, was, items)) => {
            enter(Frame::InArray(at, was, items), State::Item, false, stack)
        }
        other => refuse(other),
    }
}

/// The array of these items is read.
pub fn end_items(
    alloc: Global,
    at: usize,
    was: bool,
    items: Kept<Vec<Expr>>,
    stack: &Vec<Frame>,
) -> Result<Next, Stop>
    ensures { Gives (λ n. next_of n stack.now.items) result
        (Some (done (of_items 64 at (kept_items items)), was, frames_of stack.now.items)) }
{
    Ok(Next {
        state: State::Done(array_of(alloc, at, items)?),
        inside: was,
    })
}

/// `]` after items and separators.
pub fn close_items(alloc: Global, stack: &mut Vec<Frame>) -> Result<Next, Stop>
    ensures { Gives (λ n. next_of n stack.new.items) result
        (items_closed 64 (frames_of stack.old.items)) }
{
    match close(stack) {
        Some(Frame::Opened(at, was)) => end_items(alloc, at, was, empty(alloc), stack),
        Some(Frame::InArray(at, was, items)) => end_items(alloc, at, was, items, stack),
        other => refuse(other),
    }
}
