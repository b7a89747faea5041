// Loops: where a for-expression may be, and its names.
#![tactic(auto, using(bicep_machine::proofs::StackLemmas::stacks))]

ghost use Rattle.std.specs.Prelude.{◌≡◌, Some, None, false, ◌∷◌, if◌then◌else◌};
ghost use Rattle.bicep_machine.specs.Stack.{assigned, bodied, item, wanted};
ghost use Rattle.bicep_machine.specs.Closing.{each_declared, each_on, is_for, with_each, over_on, pair_of, pair_on};
ghost use Rattle.bicep_machine.specs.Closing.{takes_loops, holds_loops, named_on, item_on};
ghost use Rattle.foundation.specs.Stopping.{Gives};
ghost use Rattle.bicep_machine.specs.Views.{kept, kept_value, kept_decorators, header_of, front_of, assigned_of};
ghost use Rattle.bicep_machine.specs.Views.{frame_of, frames_of, next_of, state_of, Frames};

use bicep_machine::{
    Assigned, Frame, Front, Header, Kept, Next, State, close, enter, is_for, open, pair_of,
    property_of, refuse, run_out, statement_of, with_each,
};
use bicep_tree::{Decorator, Expr, LoopNames, Name, Value};
use foundation::Stop;

// A declaration with its for-expression, where it may have one.
fn declare_each(
    decorators: Kept<Vec<Decorator>>,
    assigned: Assigned,
    value: Kept<Value>,
) -> Result<Next, Stop>
    ensures { (S : Frames) → Gives (λ n. (state_of n.state, n.inside, S)) result
        (each_declared (kept_decorators decorators)
        (with_each (assigned_of assigned) (kept_value value)) S) }
{
    match with_each(assigned, value) {
        None => refuse(decorators),
        Some(declaration) => Ok(Next {
            state: State::PastStatement(statement_of(decorators, declaration)),
            inside: false,
        }),
    }
}

/// Puts a for-expression that ended into its member or declaration.
pub fn put_each(value: Kept<Value>, stack: &mut Vec<Frame>) -> Result<Next, Stop>
    ensures { Gives (λ n. next_of n stack.new.items) result
        (each_on (kept_value value) (frames_of stack.old.items)) }
{
    match close(stack) {
        Some(Frame::Valued(label)) => Ok(Next {
            state: State::PastMember(property_of(label, value)),
            inside: false,
        }),
        Some(Frame::Assigned(decorators, assigned)) => declare_each(decorators, assigned, value),
        other => refuse((other, value)),
    }
}

// Opens a loop in a member or a declaration; what it goes over comes next.
fn run_over(place: Frame, names: Frame, stack: &mut Vec<Frame>) -> Result<Next, Stop>
    ensures { Gives (λ n. next_of n stack.new.items) result
        (Some (wanted false, false, frame_of names ∷ frame_of place ∷ frames_of stack.old.items)) }
{
    match open(stack, place) {
        Ok(()) => enter(names, State::Wanted(false), false, stack),
        Err(_) => run_out(names),
    }
}

// `[for x in` of a declaration, where that may have one.
fn run_over_declared(
    decorators: Kept<Vec<Decorator>>,
    declaration: Assigned,
    at: usize,
    names: LoopNames,
    stack: &mut Vec<Frame>,
) -> Result<Next, Stop>
    ensures { Gives (λ n. next_of n stack.new.items) result
        (over_on at names (assigned (kept_decorators decorators) (assigned_of declaration)
        ∷ frames_of stack.old.items)) }
{
    match declaration {
        Assigned::Var(from, name) => {
            let place = Frame::Assigned(decorators, Assigned::Var(from, name));
            run_over(place, Frame::Over(at, names), stack)
        }
        Assigned::Output(from, name, kind) => {
            let place = Frame::Assigned(decorators, Assigned::Output(from, name, kind));
            run_over(place, Frame::Over(at, names), stack)
        }
        other => refuse((other, decorators, names)),
    }
}

// `[for x in` of a body, where nothing comes before it.
fn run_over_body(
    header: Box<Header>,
    front: Front,
    at: usize,
    names: LoopNames,
    stack: &mut Vec<Frame>,
) -> Result<Next, Stop>
    ensures { Gives (λ n. next_of n stack.new.items) result
        (over_on at names (bodied (header_of header.value) (front_of front)
        ∷ frames_of stack.old.items)) }
{
    match front {
        Front::Nothing => {
            let frame = Frame::BodyOver(at, names, header);
            enter(frame, State::Wanted(false), false, stack)
        }
        other => refuse((other, header, names)),
    }
}

/// `[for x in` in a member, a declaration or a body.
pub fn over_on(at: usize, names: LoopNames, stack: &mut Vec<Frame>) -> Result<Next, Stop>
    ensures { Gives (λ n. next_of n stack.new.items) result
        (over_on at names (frames_of stack.old.items)) }
{
    match close(stack) {
        Some(Frame::Valued(label)) => {
            run_over(Frame::Valued(label), Frame::Over(at, names), stack)
        }
        Some(Frame::Assigned(decorators, declaration)) => {
            run_over_declared(decorators, declaration, at, names, stack)
        }
        Some(Frame::Bodied(header, front)) => run_over_body(header, front, at, names, stack),
        other => refuse((other, names)),
    }
}

// `[for (x, i)` after `[`, where the word is `for`.
fn pair_at(at: usize, word: Name, names: LoopNames, stack: &mut Vec<Frame>) -> Result<Next, Stop>
    ensures { Gives (λ n. next_of n stack.new.items) result
        (if is_for word.text then over_on at names (frames_of stack.old.items) else None) }
{
    if is_for(word.text) {
        over_on(at, names, stack)
    } else {
        refuse(names)
    }
}

/// `[for (x, i)` in its place, where the expression after `[` is read as a call.
pub fn pair_on(e: Kept<Box<Expr>>, stack: &mut Vec<Frame>) -> Result<Next, Stop>
    ensures { Gives (λ n. next_of n stack.new.items) result
        (pair_on (pair_of (kept e).0) (frames_of stack.old.items)) }
{
    match pair_of(Box::into_inner(e.part)) {
        None => Err(Stop::Refused),
        Some((word, item, index)) => match close(stack) {
            Some(Frame::Opened(at, _)) => pair_at(at, word, LoopNames::Both(item, index), stack),
            Some(other) => refuse((other, word, (item, index))),
            None => refuse((word, item, index)),
        },
    }
}

// Whether a declaration may have a for-expression after its `=`.
fn takes_loops(declaration: &Assigned) -> bool
    ensures { result ≡ takes_loops (assigned_of declaration.now) }
{
    match declaration {
        Assigned::Var(_, _) => true,
        Assigned::Output(_, _, _) => true,
        Assigned::Metadata(_, _) => false,
        Assigned::Scope(_) => false,
        Assigned::Param(_, _, _) => false,
    }
}

// Whether a for-expression may be right in it.
fn holds_loops(frame: &Frame) -> bool
    ensures { result ≡ holds_loops (frame_of frame.now) }
{
    match frame {
        Frame::Valued(_) => true,
        Frame::Assigned(_, declaration) => takes_loops(declaration),
        _ => false,
    }
}

// `[for x` of a value, where that may be there.
fn named_on(at: usize, was: bool, item: Name, stack: &mut Vec<Frame>) -> Result<Next, Stop>
    ensures { Gives (λ n. next_of n stack.new.items) result
        (named_on at was item (frames_of stack.old.items)) }
{
    match close(stack) {
        None => refuse(item),
        Some(frame) => {
            if holds_loops(&frame) {
                let state = State::Among(at, LoopNames::Item(item));
                enter(frame, state, was, stack)
            } else {
                refuse((frame, item))
            }
        }
    }
}

// `[for x` after `[`, where the word is `for`.
fn item_at(
    at: usize,
    was: bool,
    word: Name,
    item: Name,
    stack: &mut Vec<Frame>,
) -> Result<Next, Stop>
    ensures { Gives (λ n. next_of n stack.new.items) result
        (if is_for word.text then named_on at was item (frames_of stack.old.items) else None) }
{
    if is_for(word.text) {
        named_on(at, was, item, stack)
    } else {
        refuse(item)
    }
}

/// `[for x` in its place.
pub fn item_on(word: Name, item: Name, stack: &mut Vec<Frame>) -> Result<Next, Stop>
    ensures { Gives (λ n. next_of n stack.new.items) result
        (item_on word item (frames_of stack.old.items)) }
{
    match close(stack) {
        Some(Frame::Opened(at, was)) => item_at(at, was, word, item, stack),
        Some(other) => refuse((other, word, item)),
        None => refuse((word, item)),
    }
}
