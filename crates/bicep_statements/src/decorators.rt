// The tokens of decorators, and the word after them.
#![tactic(auto, using(bicep_machine::proofs::StackLemmas::stacks))]

ghost use Rattle.std.specs.Prelude.{◌≡◌};
ghost use Rattle.bicep_tree.specs.declared.terminal.Terminal.TheVariants as t;
ghost use Rattle.bicep_tree.specs.declared.leaf.Access.TheVariants as a;
ghost use Rattle.bicep_machine.specs.Machine.{is_resource, child_on, decorated_word, at_sign_step};
ghost use Rattle.bicep_machine.specs.Machine.{decorator_named_step, decorator_spaced_step, decorator_ready_step};
ghost use Rattle.bicep_machine.specs.Machine.{decorated_step, past_decorators_step};
ghost use Rattle.foundation.specs.Stopping.{Gives};
ghost use Rattle.bicep_machine.specs.Views.{kept_decorators, frames_of, state_of, next_of, Frames};

use crate::statements::declare;
use arm_value::Text;
use bicep_machine::{
    Callee, Frame, Kept, Next, State, Word, close, empty, enter, is_resource, is_sys, open, refuse,
    run_out,
};
use bicep_tree::{Access, Decorator, Function, Name, Namespace, Terminal};
use foundation::Stop;
use std::alloc::Global;

/// `@`
pub fn name_decorator(
    decorators: Kept<Vec<Decorator>>,
    sign: usize,
    at: usize,
    terminal: Terminal,
) -> Result<Next, Stop>
    ensures { (S : Frames) → Gives (λ n. (state_of n.state, n.inside, S)) result
        (at_sign_step (kept_decorators decorators) sign S at terminal) }
{
    match terminal {
        Terminal::Name(text) => Ok(Next {
            state: State::DecoratorNamed(decorators, sign, Name { at, text }),
            inside: false,
        }),
        other => refuse((other, decorators)),
    }
}

// `.` after the name of a decorator, which names a name space.
fn enter_space(decorators: Kept<Vec<Decorator>>, sign: usize, name: Name) -> Result<Next, Stop>
    ensures { (S : Frames) → Gives (λ n. (state_of n.state, n.inside, S)) result
        (decorator_named_step (kept_decorators decorators) sign name S (t.Access a.Member)) }
{
    let at = name.at;
    if is_sys(name.text) {
        Ok(Next {
            state: State::DecoratorSpaced(decorators, sign, at),
            inside: false,
        })
    } else {
        refuse(decorators)
    }
}

/// `@f`
pub fn go_on_decorator(
    alloc: Global,
    decorators: Kept<Vec<Decorator>>,
    sign: usize,
    name: Name,
    stack: &mut Vec<Frame>,
    terminal: Terminal,
) -> Result<Next, Stop>
    ensures { Gives (λ n. next_of n stack.new.items) result
        (decorator_named_step (kept_decorators decorators) sign name
        (frames_of stack.old.items) terminal) }
{
    match terminal {
        Terminal::OpenParen => call_decorator(
            alloc,
            decorators,
            sign,
            Function::Plain(name),
            stack,
        ),
        Terminal::Access(Access::Member) => enter_space(decorators, sign, name),
        other => refuse((other, decorators, name)),
    }
}

/// `@sys.`
pub fn name_spaced_decorator(
    decorators: Kept<Vec<Decorator>>,
    sign: usize,
    from: usize,
    at: usize,
    terminal: Terminal,
) -> Result<Next, Stop>
    ensures { (S : Frames) → Gives (λ n. (state_of n.state, n.inside, S)) result
        (decorator_spaced_step (kept_decorators decorators) sign from S at terminal) }
{
    match terminal {
        Terminal::Name(text) => {
            let function = Function::Qualified(from, Namespace::Sys, Name { at, text });
            let state = State::DecoratorReady(decorators, sign, function);
            Ok(Next {
                state,
                inside: false,
            })
        }
        other => refuse((other, decorators)),
    }
}

// `(` after the function of a decorator.
fn call_decorator(
    alloc: Global,
    decorators: Kept<Vec<Decorator>>,
    sign: usize,
    function: Function,
    stack: &mut Vec<Frame>,
) -> Result<Next, Stop>
    ensures { Gives (λ n. next_of n stack.new.items) result
        (decorator_ready_step (kept_decorators decorators) sign function
        (frames_of stack.old.items) t.OpenParen) }
{
    let callee = Callee::Decorator(decorators, sign, function);
    let frame = Frame::Calling(callee, false, empty(alloc));
    enter(frame, State::First, true, stack)
}

/// `@sys.f`
pub fn begin_decorator(
    alloc: Global,
    decorators: Kept<Vec<Decorator>>,
    sign: usize,
    function: Function,
    stack: &mut Vec<Frame>,
    terminal: Terminal,
) -> Result<Next, Stop>
    ensures { Gives (λ n. next_of n stack.new.items) result
        (decorator_ready_step (kept_decorators decorators) sign function
        (frames_of stack.old.items) terminal) }
{
    match terminal {
        Terminal::OpenParen => call_decorator(alloc, decorators, sign, function, stack),
        other => refuse((other, decorators, function)),
    }
}

/// Decorators, after which a newline comes.
pub fn end_decorator(decorators: Kept<Vec<Decorator>>, terminal: Terminal) -> Result<Next, Stop>
    ensures { (S : Frames) → Gives (λ n. (state_of n.state, n.inside, S)) result
        (decorated_step (kept_decorators decorators) S terminal) }
{
    match terminal {
        Terminal::Newline => Ok(Next {
            state: State::PastDecorators(decorators),
            inside: false,
        }),
        other => refuse((other, decorators)),
    }
}

// A word after decorators in an object.
fn declare_child(decorators: Kept<Vec<Decorator>>, at: usize, word: Text) -> Result<Next, Stop>
    ensures { (S : Frames) → Gives (λ n. (state_of n.state, n.inside, S)) result
        (child_on (kept_decorators decorators) at (is_resource word) S) }
{
    if is_resource(word) {
        Ok(Next {
            state: State::Declaring(decorators, at, Word::Child),
            inside: false,
        })
    } else {
        refuse(decorators)
    }
}

// A word after decorators, in an object or in a file.
fn decorated_word(
    decorators: Kept<Vec<Decorator>>,
    at: usize,
    word: Text,
    stack: &mut Vec<Frame>,
) -> Result<Next, Stop>
    ensures { Gives (λ n. next_of n stack.new.items) result
        (decorated_word (kept_decorators decorators) at word (frames_of stack.old.items)) }
{
    match close(stack) {
        Some(Frame::InObject(from, was, members)) => {
            match open(stack, Frame::InObject(from, was, members)) {
                Ok(()) => declare_child(decorators, at, word),
                Err(_) => run_out((decorators, word)),
            }
        }
        Some(Frame::InFile(statements)) => match open(stack, Frame::InFile(statements)) {
            Ok(()) => declare(decorators, at, word),
            Err(_) => run_out((decorators, word)),
        },
        other => refuse((other, decorators, word)),
    }
}

/// Decorators and the newline after them.
pub fn past_decorators(
    decorators: Kept<Vec<Decorator>>,
    stack: &mut Vec<Frame>,
    at: usize,
    terminal: Terminal,
) -> Result<Next, Stop>
    ensures { Gives (λ n. next_of n stack.new.items) result
        (past_decorators_step (kept_decorators decorators) (frames_of stack.old.items)
        at terminal) }
{
    match terminal {
        Terminal::At => Ok(Next {
            state: State::AtSign(decorators, at),
            inside: false,
        }),
        Terminal::Name(word) => decorated_word(decorators, at, word, stack),
        other => refuse((other, decorators)),
    }
}
