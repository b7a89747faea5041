// Tokens in expressions.
#![tactic(auto, using(bicep_machine::proofs::StackLemmas::stacks))]

ghost use Rattle.std.specs.Prelude.{◌≡◌, ℕ, Some, true, [], ◌∷◌, IfOk};
ghost use Rattle.bicep_tree.specs.Precedence.{level};
ghost use Rattle.bicep_tree.specs.declared.terminal.Terminal.TheVariants as t;
ghost use Rattle.bicep_machine.specs.Stack.{first, calling};
ghost use Rattle.bicep_tree.specs.declared.leaf.Access.TheVariants as a;
ghost use Rattle.bicep_tree.specs.Tree.{name};
ghost use Rattle.bicep_machine.specs.Kept.{flat, of_access};
ghost use Rattle.bicep_machine.specs.Closing.{closed};
ghost use Rattle.bicep_machine.specs.Machine.{begun, wanted_step, with_operator, with_question, gone_on};
ghost use Rattle.bicep_machine.specs.Machine.{namespace_of, space_on, named_step, qualifying_step, qualified_step};
ghost use Rattle.bicep_machine.specs.Machine.{dotted_step, first_step, item_step};
ghost use Rattle.bicep_machine.specs.Folding.{in_on};
ghost use Rattle.foundation.specs.Stopping.{Gives};
ghost use Rattle.bicep_machine.specs.Views.{kept, callee_of, frames_of, state_of, next_of, Frames};

use crate::ends::end;
use arm_value::{OutOfMemory, Text};
use bicep_machine::{
    Callee, Frame, Kept, Next, State, access_of, closed, empty, enter, is_in, level_of, literal_at,
    named, namespace_of, not_null_of, refuse, run_out,
};
use bicep_places::{close_call, close_items, item_on, pair_on, part_items};
use bicep_tree::{Access, Expr, Function, Indexing, Name, Namespace, Operator, Prefix, Terminal};
use foundation::Stop;
use std::alloc::Global;

// An operator before its operand.
fn prefix(operator: Operator, at: usize, inside: bool, stack: &mut Vec<Frame>) -> Result<Next, Stop>
    ensures { Gives (λ n. next_of n stack.new.items) result
        (begun inside (frames_of stack.old.items) at (t.Operator operator)) }
{
    match operator {
        Operator::Subtract => {
            let frame = Frame::Prefixing(at, Prefix::Negate);
            enter(frame, State::Wanted(false), inside, stack)
        },
        _ => Err(Stop::Refused),
    }
}

/// An expression begins.
pub fn begin(
    alloc: Global,
    inside: bool,
    stack: &mut Vec<Frame>,
    at: usize,
    terminal: Terminal,
) -> Result<Next, Stop>
    ensures { Gives (λ n. next_of n stack.new.items) result
        (begun inside (frames_of stack.old.items) at terminal) }
{
    match terminal {
        Terminal::Name(text) => Ok(Next {
            state: State::Named(Name { at, text }),
            inside,
        }),
        Terminal::Literal(value) => Ok(Next {
            state: State::Done(literal_at(alloc, at, value)?),
            inside,
        }),
        Terminal::LeftPiece(before) => {
            let frame = Frame::InText(at, before, empty(alloc));
            enter(frame, State::Wanted(false), inside, stack)
        }
        Terminal::OpenBrace => {
            let frame = Frame::InObject(at, inside, empty(alloc));
            enter(frame, State::Member, false, stack)
        }
        Terminal::OpenBracket => enter(Frame::Opened(at, inside), State::Item, false, stack),
        Terminal::OpenParen => {
            let frame = Frame::Grouping(at, inside);
            enter(frame, State::Wanted(false), true, stack)
        }
        Terminal::Not => {
            let frame = Frame::Prefixing(at, Prefix::Not);
            enter(frame, State::Wanted(false), inside, stack)
        }
        Terminal::Operator(operator) => prefix(operator, at, inside, stack),
        other => refuse(other),
    }
}

/// Something after which an expression comes.
pub fn want_on(
    alloc: Global,
    skips: bool,
    inside: bool,
    stack: &mut Vec<Frame>,
    at: usize,
    terminal: Terminal,
) -> Result<Next, Stop>
    ensures { Gives (λ n. next_of n stack.new.items) result
        (wanted_step skips inside (frames_of stack.old.items) at terminal) }
{
    if !skips {
        return begin(alloc, inside, stack, at, terminal);
    }
    match terminal {
        Terminal::Newline => Ok(Next {
            state: State::Wanted(true),
            inside,
        }),
        other => begin(alloc, inside, stack, at, other),
    }
}

/// `?`
pub fn ask(
    alloc: Global,
    inside: bool,
    e: Kept<Box<Expr>>,
    stack: &mut Vec<Frame>,
) -> Result<Next, Stop>
    ensures { Gives (λ n. next_of n stack.new.items) result
        (with_question 64 inside (closed 64 1 (kept e) (frames_of stack.old.items))) }
{
    let condition = closed(alloc, 1, e, stack)?;
    enter(Frame::Asked(condition), State::Wanted(true), inside, stack)
}

// An operator after an operand.
fn operate(
    alloc: Global,
    operator: Operator,
    inside: bool,
    e: Kept<Box<Expr>>,
    stack: &mut Vec<Frame>,
) -> Result<Next, Stop>
    ensures { Gives (λ n. next_of n stack.new.items) result
        (with_operator 64 inside operator
        (closed 64 (level operator) (kept e) (frames_of stack.old.items))) }
{
    let left = closed(alloc, level_of(operator), e, stack)?;
    enter(
        Frame::Left(operator, left),
        State::Wanted(true),
        inside,
        stack,
    )
}

// A word after an expression.
fn run_in(e: Kept<Box<Expr>>, word: Text, stack: &mut Vec<Frame>) -> Result<Next, Stop>
    ensures { Gives (λ n. next_of n stack.new.items) result
        (in_on word (kept e) (frames_of stack.old.items)) }
{
    if is_in(word) {
        pair_on(e, stack)
    } else {
        refuse(e)
    }
}

/// An expression continues or ends.
pub fn go_on(
    alloc: Global,
    e: Kept<Box<Expr>>,
    inside: bool,
    stack: &mut Vec<Frame>,
    terminal: Terminal,
) -> Result<Next, Stop>
    ensures { Gives (λ n. next_of n stack.new.items) result
        (gone_on 64 (kept e) inside (frames_of stack.old.items) terminal) }
{
    match terminal {
        Terminal::Access(access) => Ok(Next {
            state: State::Dotted(access, e),
            inside,
        }),
        Terminal::OpenBracket => {
            let frame = Frame::Indexing(e, Indexing::Plain);
            enter(frame, State::Wanted(false), inside, stack)
        }
        Terminal::SafeBracket => {
            let frame = Frame::Indexing(e, Indexing::Safe);
            enter(frame, State::Wanted(false), inside, stack)
        }
        Terminal::Not => Ok(Next {
            state: State::Done(not_null_of(alloc, e)?),
            inside,
        }),
        Terminal::Operator(operator) => operate(alloc, operator, inside, e, stack),
        Terminal::Question => ask(alloc, inside, e, stack),
        Terminal::Newline => Ok(Next {
            state: State::Paused(e),
            inside,
        }),
        Terminal::Name(word) => run_in(e, word, stack),
        other => end(alloc, e, inside, stack, other),
    }
}

// `(` after the name of a function.
fn call(alloc: Global, callee: Callee, was: bool, stack: &mut Vec<Frame>) -> Result<Next, Stop>
    ensures { Gives (λ n. next_of n stack.new.items) result
        (Some (first, true, calling (callee_of callee) was ([], 0) ∷ frames_of stack.old.items)) }
{
    let frame = Frame::Calling(callee, was, empty(alloc));
    enter(frame, State::First, true, stack)
}

// `.`, `.?` or `::` after a name.
fn dot(alloc: Global, access: Access, name: Name, inside: bool) -> Result<Next, Stop>
    ensures { (S : Frames) → (at : ℕ) → Gives (λ n. (state_of n.state, n.inside, S)) result
        (named_step 64 name inside S at (t.Access access)) }
{
    match access {
        Access::Member => dot_member(alloc, name, inside),
        _ => Ok(Next {
            state: State::Dotted(access, named(alloc, name)?),
            inside,
        }),
    }
}

// `.` after a name.
fn dot_member(alloc: Global, name: Name, inside: bool) -> Result<Next, Stop>
    ensures { (S : Frames) → Gives (λ n. (state_of n.state, n.inside, S)) result
        (space_on 64 (namespace_of name.text) name inside S) }
{
    match namespace_of(&name.text) {
        Some(space) => Ok(Next {
            state: State::Qualifying(space, name),
            inside,
        }),
        None => {
            let value = named(alloc, name)?;
            Ok(Next {
                state: State::Dotted(Access::Member, value),
                inside,
            })
        }
    }
}

/// A name in the place of an expression.
pub fn go_on_name(
    alloc: Global,
    name: Name,
    inside: bool,
    stack: &mut Vec<Frame>,
    at: usize,
    terminal: Terminal,
) -> Result<Next, Stop>
    ensures { Gives (λ n. next_of n stack.new.items) result
        (named_step 64 name inside (frames_of stack.old.items) at terminal) }
{
    match terminal {
        Terminal::OpenParen => {
            let callee = Callee::Function(Function::Plain(name));
            call(alloc, callee, inside, stack)
        }
        Terminal::Access(access) => dot(alloc, access, name, inside),
        Terminal::Name(text) => item_on(name, Name { at, text }, stack),
        other => match named(alloc, name) {
            Ok(value) => go_on(alloc, value, inside, stack, other),
            Err(_) => run_out(other),
        },
    }
}

/// `sys` or `az`, and `.`.
pub fn qualify(
    space: Namespace,
    from: Name,
    inside: bool,
    stack: &Vec<Frame>,
    at: usize,
    terminal: Terminal,
) -> Result<Next, Stop>
    ensures { Gives (λ n. next_of n stack.now.items) result
        (qualifying_step 64 space from inside (frames_of stack.now.items) at terminal) }
{
    match terminal {
        Terminal::Name(text) => {
            Ok(Next {
                state: State::Qualified(space, from, Name { at, text }),
                inside,
            })
        }
        other => refuse((other, from)),
    }
}

// A name, `.` and another name.
fn member_of(alloc: Global, from: Name, member: Name) -> Result<Kept<Box<Expr>>, OutOfMemory>
    ensures { IfOk result (λ k. kept k ≡ of_access 64 (flat (name from)) a.Member member) }
{
    let value = named(alloc, from)?;
    access_of(alloc, value, Access::Member, member)
}

/// `sys` or `az`, `.` and a name.
pub fn go_on_qualified(
    alloc: Global,
    space: Namespace,
    from: Name,
    name: Name,
    inside: bool,
    stack: &mut Vec<Frame>,
    terminal: Terminal,
) -> Result<Next, Stop>
    ensures { Gives (λ n. next_of n stack.new.items) result
        (qualified_step 64 space from name inside (frames_of stack.old.items) terminal) }
{
    match terminal {
        Terminal::OpenParen => {
            let callee = Callee::Function(Function::Qualified(from.at, space, name));
            call(alloc, callee, inside, stack)
        }
        other => match member_of(alloc, from, name) {
            Ok(member) => go_on(alloc, member, inside, stack, other),
            Err(_) => run_out(other),
        },
    }
}

/// A value and `.`, `.?` or `::`.
pub fn access_on(
    alloc: Global,
    access: Access,
    e: Kept<Box<Expr>>,
    inside: bool,
    stack: &Vec<Frame>,
    at: usize,
    terminal: Terminal,
) -> Result<Next, Stop>
    ensures { Gives (λ n. next_of n stack.now.items) result
        (dotted_step 64 access (kept e) inside (frames_of stack.now.items) at terminal) }
{
    match terminal {
        Terminal::Name(text) => {
            let member = access_of(alloc, e, access, Name { at, text })?;
            Ok(Next {
                state: State::Done(member),
                inside,
            })
        }
        other => refuse((other, e)),
    }
}

/// `(` of a call.
pub fn begin_arguments(
    alloc: Global,
    inside: bool,
    stack: &mut Vec<Frame>,
    at: usize,
    terminal: Terminal,
) -> Result<Next, Stop>
    ensures { Gives (λ n. next_of n stack.new.items) result
        (first_step 64 inside (frames_of stack.old.items) at terminal) }
{
    match terminal {
        Terminal::CloseParen => close_call(alloc, stack),
        other => begin(alloc, inside, stack, at, other),
    }
}

/// `[`, or separators after it or an item.
pub fn item(
    alloc: Global,
    stack: &mut Vec<Frame>,
    at: usize,
    terminal: Terminal,
) -> Result<Next, Stop>
    ensures { Gives (λ n. next_of n stack.new.items) result
        (item_step 64 (frames_of stack.old.items) at terminal) }
{
    match terminal {
        Terminal::Newline => part_items(alloc, stack),
        Terminal::Comma => part_items(alloc, stack),
        Terminal::CloseBracket => close_items(alloc, stack),
        other => begin(alloc, false, stack, at, other),
    }
}
