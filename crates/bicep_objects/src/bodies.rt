// Tokens before the bodies of resources and modules, at their ends, and before what a loop goes over.
#![tactic(auto, using(bicep_machine::proofs::StackLemmas::stacks))]

ghost use Rattle.std.specs.Prelude.{◌≡◌, Some, false, ◌∷◌, []};
ghost use Rattle.foundation.specs.Stopping.{Gives};
ghost use Rattle.bicep_tree.specs.declared.terminal.Terminal.TheVariants as t;
ghost use Rattle.bicep_machine.specs.Stack.{member, in_object};
ghost use Rattle.bicep_machine.specs.Machine.{body_step, looped_body_step, condition_step, guarded_step};
ghost use Rattle.bicep_machine.specs.Machine.{body_end_step, among_step};
ghost use Rattle.bicep_machine.specs.Views.{kept_body, header_of, frames_of, state_of, next_of, Frames};

use arm_value::Text;
use bicep_machine::{Frame, Header, Kept, Next, State, close, empty, enter, is_if, is_in, refuse};
use bicep_places::{end_body, over_on};
use bicep_tree::{Body, LoopNames, Terminal};
use foundation::Stop;
use std::alloc::Global;

// `{` of a body.
fn open_object(alloc: Global, at: usize, stack: &mut Vec<Frame>) -> Result<Next, Stop>
    ensures { Gives (λ n. next_of n stack.new.items) result
        (Some (member, false, in_object at false ([], 0) ∷ frames_of stack.old.items)) }
{
    let frame = Frame::InObject(at, false, empty(alloc));
    enter(frame, State::Member, false, stack)
}

// A word before the object of a body.
fn condition_at(at: usize, word: Text) -> Result<Next, Stop>
    ensures { (S : Frames) → Gives (λ n. (state_of n.state, n.inside, S)) result
        (looped_body_step S at (t.Name word)) }
{
    if is_if(word) {
        Ok(Next {
            state: State::Condition(at),
            inside: false,
        })
    } else {
        Err(Stop::Refused)
    }
}

/// `=` before a body.
pub fn begin_body(
    alloc: Global,
    stack: &mut Vec<Frame>,
    at: usize,
    terminal: Terminal,
) -> Result<Next, Stop>
    ensures { Gives (λ n. next_of n stack.new.items) result
        (body_step (frames_of stack.old.items) at terminal) }
{
    match terminal {
        Terminal::OpenBrace => open_object(alloc, at, stack),
        Terminal::OpenBracket => Ok(Next {
            state: State::ForWanted(at),
            inside: false,
        }),
        Terminal::Name(word) => condition_at(at, word),
        other => refuse(other),
    }
}

/// `:` before the body of a loop.
pub fn begin_looped_body(
    alloc: Global,
    stack: &mut Vec<Frame>,
    at: usize,
    terminal: Terminal,
) -> Result<Next, Stop>
    ensures { Gives (λ n. next_of n stack.new.items) result
        (looped_body_step (frames_of stack.old.items) at terminal) }
{
    match terminal {
        Terminal::OpenBrace => open_object(alloc, at, stack),
        Terminal::Name(word) => condition_at(at, word),
        other => refuse(other),
    }
}

// `(` after the `if` of a body.
fn open_condition(at: usize, stack: &mut Vec<Frame>) -> Result<Next, Stop>
    ensures { Gives (λ n. next_of n stack.new.items) result
        (condition_step at (frames_of stack.old.items) t.OpenParen) }
{
    match close(stack) {
        Some(Frame::Bodied(header, front)) => {
            let frame = Frame::InCondition(at, header, front);
            enter(frame, State::Wanted(false), true, stack)
        }
        other => refuse(other),
    }
}

/// `if`
pub fn begin_condition(at: usize, stack: &mut Vec<Frame>, terminal: Terminal) -> Result<Next, Stop>
    ensures { Gives (λ n. next_of n stack.new.items) result
        (condition_step at (frames_of stack.old.items) terminal) }
{
    match terminal {
        Terminal::OpenParen => open_condition(at, stack),
        other => refuse(other),
    }
}

/// `if (c)`
pub fn begin_guarded(
    alloc: Global,
    stack: &mut Vec<Frame>,
    at: usize,
    terminal: Terminal,
) -> Result<Next, Stop>
    ensures { Gives (λ n. next_of n stack.new.items) result
        (guarded_step (frames_of stack.old.items) at terminal) }
{
    match terminal {
        Terminal::OpenBrace => open_object(alloc, at, stack),
        other => refuse(other),
    }
}

/// The object of a loop's body.
pub fn end_loop(
    header: Box<Header>,
    body: Kept<Body>,
    stack: &Vec<Frame>,
    terminal: Terminal,
) -> Result<Next, Stop>
    ensures { Gives (λ n. next_of n stack.now.items) result
        (body_end_step (header_of header.value) (kept_body body)
        (frames_of stack.now.items) terminal) }
{
    match terminal {
        Terminal::CloseBracket => Ok(end_body(Box::into_inner(header), body, stack)),
        other => refuse((other, header, body)),
    }
}

/// `[for` and the names.
pub fn go_on_among(
    at: usize,
    names: LoopNames,
    stack: &mut Vec<Frame>,
    terminal: Terminal,
) -> Result<Next, Stop>
    ensures { Gives (λ n. next_of n stack.new.items) result
        (among_step at names (frames_of stack.old.items) terminal) }
{
    match terminal {
        Terminal::Name(word) => {
            if is_in(word) {
                over_on(at, names, stack)
            } else {
                refuse(names)
            }
        }
        other => refuse((other, names)),
    }
}
