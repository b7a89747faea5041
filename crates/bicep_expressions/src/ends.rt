// Tokens that end an expression: its operators are closed, and what is open then takes it.
#![tactic(auto, using(bicep_machine::proofs::StackLemmas::stacks))]

ghost use Rattle.std.specs.Prelude.{◌≡◌, Some, false, true, ◌∷◌};
ghost use Rattle.bicep_machine.specs.Closing.{called, closed, paren_on, bracket_on, comma_on, brace_on, colon_on};
ghost use Rattle.bicep_machine.specs.Closing.{late_colon_on, middle_on, right_on, newline_on};
ghost use Rattle.bicep_machine.specs.Kept.{put, of_hole, of_items, of_loop};
ghost use Rattle.bicep_machine.specs.Stack.{a_loop, bodied, calling, done, in_array, in_text, item, looped};
ghost use Rattle.bicep_machine.specs.Stack.{looped_body, wanted};
ghost use Rattle.foundation.specs.Stopping.{Gives};
ghost use Rattle.bicep_machine.specs.Views.{kept, kept_holes, kept_items, callee_of, header_of, frames_of, next_of};
ghost use Rattle.bicep_machine.specs.Views.{state_of, Frames};
ghost use Rattle.bicep_expressions.specs.Ends.{ended_on};

use arm_value::Text;
use bicep_machine::{
    Callee, Frame, Front, Header, Kept, Next, State, close, closed, each_of, empty, enter, file,
    index_of, loop_of, parentheses_of, plain_of, property_of, refuse, run_out, statement_of,
    text_of, with_expression, with_hole, with_item,
};
use bicep_places::{close_member, end_call, end_items, guard, put_each, put_member};
use bicep_tree::{Expr, Hole, LoopNames, Terminal};
use foundation::Stop;
use std::alloc::Global;

// The last argument of a call.
fn end_arguments(
    alloc: Global,
    callee: Callee,
    was: bool,
    arguments: Kept<Vec<Expr>>,
    e: Kept<Box<Expr>>,
    stack: &Vec<Frame>,
) -> Result<Next, Stop>
    ensures { Gives (λ n. next_of n stack.now.items) result
        (called 64 (callee_of callee) was (put (kept_items arguments) (kept e))
        (frames_of stack.now.items)) }
{
    match with_item(arguments, e) {
        Ok(arguments) => end_call(alloc, callee, was, arguments, stack),
        Err(_) => run_out(callee),
    }
}

// `)` after an expression whose operators are closed.
fn end_at_paren(alloc: Global, e: Kept<Box<Expr>>, stack: &mut Vec<Frame>) -> Result<Next, Stop>
    ensures { Gives (λ n. next_of n stack.new.items) result
        (paren_on 64 (kept e, frames_of stack.old.items)) }
{
    match close(stack) {
        Some(Frame::Grouping(at, was)) => Ok(Next {
            state: State::Done(parentheses_of(alloc, at, e)?),
            inside: was,
        }),
        Some(Frame::Calling(callee, was, arguments)) => {
            end_arguments(alloc, callee, was, arguments, e, stack)
        }
        Some(Frame::InCondition(at, header, front)) => guard(header, front, at, e, stack),
        other => refuse((other, e)),
    }
}

// The last item of an array.
fn end_array(
    alloc: Global,
    at: usize,
    was: bool,
    items: Kept<Vec<Expr>>,
    e: Kept<Box<Expr>>,
    stack: &Vec<Frame>,
) -> Result<Next, Stop>
    ensures { Gives (λ n. next_of n stack.now.items) result
        (Some (
          done (of_items 64 at (put (kept_items items) (kept e))),
          was,
          frames_of stack.now.items,
        )) }
{
    let items = with_item(items, e)?;
    end_items(alloc, at, was, items, stack)
}

// `]` after an expression whose operators are closed.
fn end_at_bracket(
    alloc: Global,
    inside: bool,
    e: Kept<Box<Expr>>,
    stack: &mut Vec<Frame>,
) -> Result<Next, Stop>
    ensures { Gives (λ n. next_of n stack.new.items) result
        (bracket_on 64 inside (kept e, frames_of stack.old.items)) }
{
    match close(stack) {
        Some(Frame::Indexing(value, indexing)) => Ok(Next {
            state: State::Done(index_of(alloc, value, indexing, e)?),
            inside,
        }),
        Some(Frame::Opened(at, was)) => end_array(alloc, at, was, empty(alloc), e, stack),
        Some(Frame::InArray(at, was, items)) => end_array(alloc, at, was, items, e, stack),
        Some(Frame::Looped(names)) => put_each(each_of(names, e), stack),
        other => refuse((other, e)),
    }
}

// An argument that another one follows.
fn add_argument(
    callee: Callee,
    was: bool,
    arguments: Kept<Vec<Expr>>,
    e: Kept<Box<Expr>>,
    stack: &mut Vec<Frame>,
) -> Result<Next, Stop>
    ensures { Gives (λ n. next_of n stack.new.items) result
        (Some (
          wanted false,
          true,
          calling (callee_of callee) was
              (put (kept_items arguments) (kept e)) ∷ frames_of stack.old.items,
        )) }
{
    match with_item(arguments, e) {
        Ok(arguments) => {
            let frame = Frame::Calling(callee, was, arguments);
            enter(frame, State::Wanted(false), true, stack)
        }
        Err(_) => run_out(callee),
    }
}

// An item of an array, and what separates it from the next.
fn add_item(
    at: usize,
    was: bool,
    items: Kept<Vec<Expr>>,
    e: Kept<Box<Expr>>,
    stack: &mut Vec<Frame>,
) -> Result<Next, Stop>
    ensures { Gives (λ n. next_of n stack.new.items) result
        (Some (
          item,
          false,
          in_array at was (put (kept_items items) (kept e))
              ∷ frames_of stack.old.items,
        )) }
{
    let items = with_item(items, e)?;
    enter(Frame::InArray(at, was, items), State::Item, false, stack)
}

// `,` after an expression whose operators are closed.
fn end_at_comma(alloc: Global, e: Kept<Box<Expr>>, stack: &mut Vec<Frame>) -> Result<Next, Stop>
    ensures { Gives (λ n. next_of n stack.new.items) result
        (comma_on 64 (kept e, frames_of stack.old.items)) }
{
    match close(stack) {
        Some(Frame::Calling(callee, was, arguments)) => {
            add_argument(callee, was, arguments, e, stack)
        }
        Some(Frame::Opened(at, was)) => add_item(at, was, empty(alloc), e, stack),
        Some(Frame::InArray(at, was, items)) => add_item(at, was, items, e, stack),
        Some(Frame::Valued(label)) => put_member(property_of(label, plain_of(e)), stack),
        other => refuse((other, e)),
    }
}

// `}` after an expression whose operators are closed.
fn end_at_brace(alloc: Global, e: Kept<Box<Expr>>, stack: &mut Vec<Frame>) -> Result<Next, Stop>
    ensures { Gives (λ n. next_of n stack.new.items) result
        (brace_on 64 (kept e, frames_of stack.old.items)) }
{
    match close(stack) {
        Some(Frame::Valued(label)) => close_member(alloc, property_of(label, plain_of(e)), stack),
        other => refuse((other, e)),
    }
}

// Opens the value of a loop.
fn want_each(
    alloc: Global,
    at: usize,
    names: LoopNames,
    over: Kept<Box<Expr>>,
    stack: &mut Vec<Frame>,
) -> Result<Next, Stop>
    ensures { Gives (λ n. next_of n stack.new.items) result
        (Some (
          wanted false,
          false,
          looped (of_loop at names (kept over))
              ∷ frames_of stack.old.items,
        )) }
{
    let names = loop_of(alloc, at, names, over)?;
    enter(Frame::Looped(names), State::Wanted(false), false, stack)
}

// Opens the body of a loop.
fn want_body(
    alloc: Global,
    at: usize,
    names: LoopNames,
    header: Box<Header>,
    over: Kept<Box<Expr>>,
    stack: &mut Vec<Frame>,
) -> Result<Next, Stop>
    ensures { Gives (λ n. next_of n stack.new.items) result
        (Some (
          looped_body,
          false,
          bodied (header_of header.value)
              (a_loop (of_loop at names (kept over))) ∷ frames_of stack.old.items,
        )) }
{
    match loop_of(alloc, at, names, over) {
        Ok(names) => {
            let frame = Frame::Bodied(header, Front::Loop(names));
            enter(frame, State::LoopedBody, false, stack)
        }
        Err(_) => run_out(header),
    }
}

// `:` after an expression whose operators are closed.
fn end_at_colon(
    alloc: Global,
    inside: bool,
    e: Kept<Box<Expr>>,
    stack: &mut Vec<Frame>,
) -> Result<Next, Stop>
    ensures { Gives (λ n. next_of n stack.new.items) result
        (colon_on 64 inside (kept e, frames_of stack.old.items)) }
{
    match close(stack) {
        Some(Frame::Asked(condition)) => {
            enter(
                Frame::Chosen(condition, e),
                State::Wanted(true),
                inside,
                stack,
            )
        }
        Some(Frame::Over(at, names)) => want_each(alloc, at, names, e, stack),
        Some(Frame::BodyOver(at, names, header)) => want_body(alloc, at, names, header, e, stack),
        other => refuse((other, e)),
    }
}

/// `:` after a newline.
pub fn end_at_late_colon(
    alloc: Global,
    e: Kept<Box<Expr>>,
    stack: &mut Vec<Frame>,
) -> Result<Next, Stop>
    ensures { Gives (λ n. next_of n stack.new.items) result
        (late_colon_on 64 (closed 64 0 (kept e) (frames_of stack.old.items))) }
{
    let e = closed(alloc, 0, e, stack)?;
    match close(stack) {
        Some(Frame::Asked(condition)) => {
            enter(
                Frame::Chosen(condition, e),
                State::Wanted(true),
                false,
                stack,
            )
        }
        other => refuse((other, e)),
    }
}

// A hole of a text that another one follows.
fn add_hole(
    at: usize,
    before: Text,
    holes: Kept<Vec<Hole>>,
    e: Kept<Box<Expr>>,
    after: Text,
    inside: bool,
    stack: &mut Vec<Frame>,
) -> Result<Next, Stop>
    ensures { Gives (λ n. next_of n stack.new.items) result
        (Some (
          wanted false,
          inside,
          in_text at before (put (kept_holes holes)
              (of_hole (kept e) after)) ∷ frames_of stack.old.items,
        )) }
{
    match with_hole(holes, e, after) {
        Ok(holes) => {
            let frame = Frame::InText(at, before, holes);
            enter(frame, State::Wanted(false), inside, stack)
        }
        Err(_) => run_out(before),
    }
}

// A piece of a text that another hole follows, after an expression whose operators are closed.
fn end_at_middle(
    inside: bool,
    after: Text,
    e: Kept<Box<Expr>>,
    stack: &mut Vec<Frame>,
) -> Result<Next, Stop>
    ensures { Gives (λ n. next_of n stack.new.items) result
        (middle_on 64 inside after (kept e, frames_of stack.old.items)) }
{
    match close(stack) {
        Some(Frame::InText(at, before, holes)) => {
            add_hole(at, before, holes, e, after, inside, stack)
        }
        other => refuse((other, e, after)),
    }
}

// The last hole of a text.
fn end_text(
    alloc: Global,
    at: usize,
    before: Text,
    holes: Kept<Vec<Hole>>,
    e: Kept<Box<Expr>>,
    after: Text,
    inside: bool,
) -> Result<Next, Stop>
    ensures { (S : Frames) → Gives (λ n. (state_of n.state, n.inside, S)) result
        (right_on 64 inside after (kept e, in_text at before (kept_holes holes) ∷ S)) }
{
    match with_hole(holes, e, after) {
        Ok(holes) => Ok(Next {
            state: State::Done(text_of(alloc, at, before, holes)?),
            inside,
        }),
        Err(_) => run_out(before),
    }
}

// The last piece of a text, after an expression whose operators are closed.
fn end_at_right(
    alloc: Global,
    inside: bool,
    after: Text,
    e: Kept<Box<Expr>>,
    stack: &mut Vec<Frame>,
) -> Result<Next, Stop>
    ensures { Gives (λ n. next_of n stack.new.items) result
        (right_on 64 inside after (kept e, frames_of stack.old.items)) }
{
    match close(stack) {
        Some(Frame::InText(at, before, holes)) => {
            end_text(alloc, at, before, holes, e, after, inside)
        }
        other => refuse((other, e, after)),
    }
}

// A token after an expression whose operators are closed.
fn end_closed(
    alloc: Global,
    e: Kept<Box<Expr>>,
    inside: bool,
    stack: &mut Vec<Frame>,
    terminal: Terminal,
) -> Result<Next, Stop>
    ensures { Gives (λ n. next_of n stack.new.items) result
        (ended_on inside (kept e, frames_of stack.old.items) terminal) }
{
    match terminal {
        Terminal::Colon => end_at_colon(alloc, inside, e, stack),
        Terminal::CloseParen => end_at_paren(alloc, e, stack),
        Terminal::CloseBracket => end_at_bracket(alloc, inside, e, stack),
        Terminal::Comma => end_at_comma(alloc, e, stack),
        Terminal::CloseBrace => end_at_brace(alloc, e, stack),
        Terminal::MiddlePiece(after) => end_at_middle(inside, after, e, stack),
        Terminal::RightPiece(after) => end_at_right(alloc, inside, after, e, stack),
        other => refuse((other, e)),
    }
}

/// A token that ends an expression.
pub fn end(
    alloc: Global,
    e: Kept<Box<Expr>>,
    inside: bool,
    stack: &mut Vec<Frame>,
    terminal: Terminal,
) -> Result<Next, Stop>
    ensures { Gives (λ n. next_of n stack.new.items) result
        (ended_on inside (closed 64 0 (kept e) (frames_of stack.old.items)) terminal) }
{
    match closed(alloc, 0, e, stack) {
        Ok(e) => end_closed(alloc, e, inside, stack, terminal),
        Err(_) => run_out(terminal),
    }
}

/// A newline that is not skipped.
pub fn end_at_newline(
    alloc: Global,
    e: Kept<Box<Expr>>,
    stack: &mut Vec<Frame>,
) -> Result<Next, Stop>
    ensures { Gives (λ n. next_of n stack.new.items) result
        (newline_on 64 (closed 64 0 (kept e) (frames_of stack.old.items))) }
{
    let e = closed(alloc, 0, e, stack)?;
    end_line(alloc, e, stack)
}

// A newline after an expression whose operators are closed.
fn end_line(alloc: Global, e: Kept<Box<Expr>>, stack: &mut Vec<Frame>) -> Result<Next, Stop>
    ensures { Gives (λ n. next_of n stack.new.items) result
        (newline_on 64 (kept e, frames_of stack.old.items)) }
{
    match close(stack) {
        Some(Frame::Opened(at, was)) => add_item(at, was, empty(alloc), e, stack),
        Some(Frame::InArray(at, was, items)) => add_item(at, was, items, e, stack),
        Some(Frame::Valued(label)) => put_member(property_of(label, plain_of(e)), stack),
        Some(Frame::Assigned(decorators, assigned)) => {
            let declaration = with_expression(assigned, e);
            file(statement_of(decorators, declaration), stack)
        }
        other => refuse((other, e)),
    }
}
