// The arguments of calls and decorators.
#![tactic(auto, using(bicep_machine::proofs::StackLemmas::stacks))]

ghost use Rattle.std.specs.Prelude.{◌≡◌};
ghost use Rattle.bicep_machine.specs.Closing.{called, call_closed};
ghost use Rattle.foundation.specs.Stopping.{Gives};
ghost use Rattle.bicep_machine.specs.Views.{kept_items, callee_of, frames_of, next_of};

use bicep_machine::{
    Callee, Frame, Kept, Next, State, call_of, close, decorator_of, refuse, with_decorator,
};
use bicep_tree::Expr;
use foundation::Stop;
use std::alloc::Global;

/// The last argument, and `)`.
pub fn end_call(
    alloc: Global,
    callee: Callee,
    was: bool,
    arguments: Kept<Vec<Expr>>,
    stack: &Vec<Frame>,
) -> Result<Next, Stop>
    ensures { Gives (λ n. next_of n stack.now.items) result
        (called 64 (callee_of callee) was (kept_items arguments) (frames_of stack.now.items)) }
{
    match callee {
        Callee::Function(function) => {
            Ok(Next {
                state: State::Done(call_of(alloc, function, arguments)?),
                inside: was,
            })
        }
        Callee::Decorator(decorators, at, function) => {
            let decorators = with_decorator(decorators, decorator_of(at, function, arguments))?;
            Ok(Next {
                state: State::Decorated(decorators),
                inside: was,
            })
        }
    }
}

/// `(` and `)` without an argument.
pub fn close_call(alloc: Global, stack: &mut Vec<Frame>) -> Result<Next, Stop>
    ensures { Gives (λ n. next_of n stack.new.items) result
        (call_closed 64 (frames_of stack.old.items)) }
{
    match close(stack) {
        Some(Frame::Calling(callee, was, arguments)) => {
            end_call(alloc, callee, was, arguments, stack)
        }
        other => refuse(other),
    }
}
