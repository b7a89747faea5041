// The parser: from tokens to an expression. What is open is on a stack, so no nesting of the text
// makes the parser recurse. A tree that would nest above the limit is not built, because dropping a
// deep tree recurses. The parser then continues without it, because a text that spells no
// expression is refused for that reason first.

ghost use Rattle.std.specs.Prelude.{◌≡◌, [], ◌∷◌, ◌++◌, List, map, Some, None, IfOk, OnOk, MatchOption};
ghost use Rattle.arm_expr.specs.Tokens.{token_of};
ghost use Rattle.arm_expr.specs.Machine.{as_kept, named, done, dotted};
ghost use Rattle.arm_expr.specs.Tree.{member, index as index_tree};
ghost use Rattle.arm_expr.specs.View.{tree_of};
ghost use Rattle.foundation.specs.Stopping.{Gives};
ghost use Rattle.arm_expr.specs.Stack.{KeptFrame, kept_of, arguments_of, frame_of, frames_of, state_of, kept_closed};
ghost use Rattle.arm_expr.specs.Stack.{kept_separated, kept_indexed, kept_begun, kept_first_begun, kept_gone_on};
ghost use Rattle.arm_expr.specs.Stack.{kept_step, kept_finished, kept_parsed};

use crate::dropping::{lacks_memory, nothing, refuse, run_out};
use crate::expr::{Expr, Exprs};
use crate::nesting::{are_within, is_within};
use crate::token::Token;
use arm_value::{OutOfMemory, Text};
use foundation::Stop;
use foundation::limits::MAX_EXPRESSION_NESTING;
use std::alloc::Global;

/// What is open.
#[derive(Drop)]
pub enum Frame {
    /// A call and its arguments so far; none of them are kept where one nests too deep.
    Calling(Text, Option<Exprs>),
    /// An expression and `[`.
    Indexing(Option<Expr>),
}

/// What was read last.
#[derive(Drop)]
pub enum State {
    /// Nothing yet, `(`, `[` or `,`: an expression is to follow.
    Wanted,
    Named(Text),
    /// The name of a call and `(`.
    Opened(Text),
    /// An expression, which is not kept where it nests too deep.
    Done(Option<Expr>),
    /// An expression and `.`.
    Dotted(Option<Expr>),
}

#[tactic(auto, using(crate::proofs::ViewLemmas::views))]
fn open(stack: &mut Vec<Frame>, frame: Frame) -> Result<(), OutOfMemory>
    ensures { OnOk result
        (frames_of stack.new.items ≡ frame_of frame ∷ frames_of stack.old.items) }
{
    stack.push(frame)?;
    Ok(())
}

fn close(stack: &mut Vec<Frame>) -> Option<Frame>
    ensures { MatchOption result (frames_of stack.old.items ≡ [])
        (λ f. frames_of stack.old.items ≡ frame_of f ∷ frames_of stack.new.items) }
{
    stack.pop()
}

#[tactic(auto, using(crate::proofs::ViewLemmas::views))]
fn pushed(mut es: Exprs, e: Expr) -> Result<Option<Exprs>, OutOfMemory>
    ensures { IfOk result (λ r. arguments_of r
        ≡ (as_kept 64).with_argument (Some (map tree_of es.items)) (Some (tree_of e))) }
{
    match es.push(e) {
        Ok(()) => Ok(Some(es)),
        Err(_refused) => lacks_memory(es),
    }
}

fn with_argument(arguments: Option<Exprs>, e: Option<Expr>) -> Result<Option<Exprs>, OutOfMemory>
    ensures { IfOk result (λ r. arguments_of r
        ≡ (as_kept 64).with_argument (arguments_of arguments) (kept_of e)) }
{
    match arguments {
        None => Ok(nothing(e)),
        Some(es) => match e {
            None => Ok(nothing(es)),
            Some(e) => pushed(es, e),
        },
    }
}

#[tactic(auto, using(crate::proofs::ViewLemmas::views))]
fn call_of(name: Text, arguments: Option<Exprs>) -> Option<Expr>
    ensures { kept_of result ≡ (as_kept 64).of_call name (arguments_of arguments) }
{
    match arguments {
        None => nothing(name),
        Some(es) => {
            if are_within(&es, MAX_EXPRESSION_NESTING - 1) {
                Some(Expr::Call(name, es))
            } else {
                nothing((name, es))
            }
        }
    }
}

#[tactic(auto, using(crate::proofs::ViewLemmas::views))]
fn boxed_member(alloc: Global, e: Expr, name: Text) -> Result<Option<Expr>, OutOfMemory>
    ensures { IfOk result (λ r. kept_of r ≡ Some (member (tree_of e) name)) }
{
    match Box::new(alloc, e) {
        Ok(e) => Ok(Some(Expr::Member(e, name))),
        Err(_refused) => lacks_memory(name),
    }
}

fn member_of(alloc: Global, e: Option<Expr>, name: Text) -> Result<Option<Expr>, OutOfMemory>
    ensures { IfOk result (λ r. kept_of r ≡ (as_kept 64).of_member (kept_of e) name) }
{
    match e {
        None => Ok(nothing(name)),
        Some(e) => {
            if is_within(&e, MAX_EXPRESSION_NESTING - 1) {
                boxed_member(alloc, e, name)
            } else {
                Ok(nothing((e, name)))
            }
        }
    }
}

#[tactic(auto, using(crate::proofs::ViewLemmas::views))]
fn index_at(alloc: Global, base: Box<Expr>, index: Expr) -> Result<Option<Expr>, OutOfMemory>
    ensures { IfOk result (λ r. kept_of r ≡ Some (index_tree (tree_of base.value) (tree_of index))) }
{
    match Box::new(alloc, index) {
        Err(_refused) => lacks_memory(base),
        Ok(index) => Ok(Some(Expr::Index(base, index))),
    }
}

fn boxed_index(alloc: Global, base: Expr, index: Expr) -> Result<Option<Expr>, OutOfMemory>
    ensures { IfOk result (λ r. kept_of r ≡ Some (index_tree (tree_of base) (tree_of index))) }
{
    match Box::new(alloc, base) {
        Err(_refused) => lacks_memory(index),
        Ok(base) => index_at(alloc, base, index),
    }
}

fn kept_index(alloc: Global, base: Expr, index: Expr) -> Result<Option<Expr>, OutOfMemory>
    ensures { IfOk result (λ r. kept_of r
        ≡ (as_kept 64).of_index (Some (tree_of base)) (Some (tree_of index))) }
{
    if is_within(&base, MAX_EXPRESSION_NESTING - 1)
        && is_within(&index, MAX_EXPRESSION_NESTING - 1)
    {
        boxed_index(alloc, base, index)
    } else {
        Ok(nothing((base, index)))
    }
}

fn index_of(
    alloc: Global,
    base: Option<Expr>,
    index: Option<Expr>,
) -> Result<Option<Expr>, OutOfMemory>
    ensures { IfOk result (λ r. kept_of r
        ≡ (as_kept 64).of_index (kept_of base) (kept_of index)) }
{
    match base {
        None => Ok(nothing(index)),
        Some(base) => match index {
            None => Ok(nothing(base)),
            Some(index) => kept_index(alloc, base, index),
        },
    }
}

// A call with one argument more, where the arguments and the argument are kept.
fn closed_call(name: Text, arguments: Option<Exprs>, e: Option<Expr>) -> Result<State, Stop>
    ensures { Gives state_of result
        (Some (done ((as_kept 64).of_call name ((as_kept 64).with_argument (arguments_of arguments) (kept_of e))))) }
{
    match with_argument(arguments, e) {
        Ok(arguments) => Ok(State::Done(call_of(name, arguments))),
        Err(_refused) => run_out(name),
    }
}

#[tactic(auto, using(crate::proofs::ViewLemmas::views))]
fn close_call(e: Option<Expr>, stack: &mut Vec<Frame>) -> Result<State, Stop>
    ensures { Gives (λ s. (state_of s, frames_of stack.new.items)) result
        (kept_closed (kept_of e) (frames_of stack.old.items)) }
{
    match close(stack) {
        Some(Frame::Calling(name, arguments)) => closed_call(name, arguments, e),
        other => refuse((other, e)),
    }
}

#[tactic(auto, using(crate::proofs::ViewLemmas::views))]
fn separate(e: Option<Expr>, stack: &mut Vec<Frame>) -> Result<State, Stop>
    ensures { Gives (λ s. (state_of s, frames_of stack.new.items)) result
        (kept_separated (kept_of e) (frames_of stack.old.items)) }
{
    match close(stack) {
        Some(Frame::Calling(name, arguments)) => match with_argument(arguments, e) {
            Ok(arguments) => {
                open(stack, Frame::Calling(name, arguments))?;
                Ok(State::Wanted)
            }
            Err(_refused) => run_out(name),
        },
        other => refuse((other, e)),
    }
}

#[tactic(auto, using(crate::proofs::ViewLemmas::views))]
fn close_index(alloc: Global, e: Option<Expr>, stack: &mut Vec<Frame>) -> Result<State, Stop>
    ensures { Gives (λ s. (state_of s, frames_of stack.new.items)) result
        (kept_indexed (kept_of e) (frames_of stack.old.items)) }
{
    match close(stack) {
        Some(Frame::Indexing(base)) => Ok(State::Done(index_of(alloc, base, e)?)),
        other => refuse((other, e)),
    }
}

// An expression begins.
#[tactic(auto, using(crate::proofs::ViewLemmas::views))]
fn begin(stack: &mut Vec<Frame>, token: Token) -> Result<State, Stop>
    ensures { Gives (λ s. (state_of s, frames_of stack.new.items)) result
        (kept_begun (frames_of stack.old.items) (token_of token)) }
{
    match token {
        Token::Text(s) => Ok(State::Done(Some(Expr::Text(s)))),
        Token::Int(z) => Ok(State::Done(Some(Expr::Int(z)))),
        Token::Name(name) => Ok(State::Named(name)),
        other => refuse(other),
    }
}

// The first argument of a call begins, or there is none.
#[tactic(auto, using(crate::proofs::ViewLemmas::views))]
fn begin_arguments(
    alloc: Global,
    name: Text,
    stack: &mut Vec<Frame>,
    token: Token,
) -> Result<State, Stop>
    ensures { Gives (λ s. (state_of s, frames_of stack.new.items)) result
        (kept_first_begun name (frames_of stack.old.items) (token_of token)) }
{
    let none = Some(Vec::new(alloc));
    match token {
        Token::CloseParen => Ok(State::Done(call_of(name, none))),
        token => match open(stack, Frame::Calling(name, none)) {
            Ok(()) => begin(stack, token),
            Err(_refused) => run_out(token),
        },
    }
}

// An expression continues or ends.
#[tactic(auto, using(crate::proofs::ViewLemmas::views))]
fn go_on(
    alloc: Global,
    e: Option<Expr>,
    stack: &mut Vec<Frame>,
    token: Token,
) -> Result<State, Stop>
    ensures { Gives (λ s. (state_of s, frames_of stack.new.items)) result
        (kept_gone_on (kept_of e) (frames_of stack.old.items) (token_of token)) }
{
    match token {
        Token::Dot => Ok(State::Dotted(e)),
        Token::OpenBracket => {
            open(stack, Frame::Indexing(e))?;
            Ok(State::Wanted)
        }
        Token::CloseBracket => close_index(alloc, e, stack),
        Token::CloseParen => close_call(e, stack),
        Token::Comma => separate(e, stack),
        other => refuse((other, e)),
    }
}

// The `(` after the name of a call.
fn open_call(name: Text, token: Token) -> Result<State, Stop>
    ensures { (S : List KeptFrame) → Gives (λ s. (state_of s, S)) result
        (kept_step (named name) S (token_of token)) }
{
    match token {
        Token::OpenParen => Ok(State::Opened(name)),
        other => refuse((other, name)),
    }
}

// The name after an expression and `.`.
fn name_member(alloc: Global, e: Option<Expr>, token: Token) -> Result<State, Stop>
    ensures { (S : List KeptFrame) → Gives (λ s. (state_of s, S)) result
        (kept_step (dotted (kept_of e)) S (token_of token)) }
{
    match token {
        Token::Name(name) => Ok(State::Done(member_of(alloc, e, name)?)),
        other => refuse((other, e)),
    }
}

// One token.
#[tactic(auto, using(crate::proofs::ViewLemmas::views))]
fn turn(alloc: Global, state: State, stack: &mut Vec<Frame>, token: Token) -> Result<State, Stop>
    ensures { Gives (λ s. (state_of s, frames_of stack.new.items)) result
        (kept_step (state_of state) (frames_of stack.old.items) (token_of token)) }
{
    match state {
        State::Wanted => begin(stack, token),
        State::Named(name) => open_call(name, token),
        State::Opened(name) => begin_arguments(alloc, name, stack, token),
        State::Done(e) => go_on(alloc, e, stack, token),
        State::Dotted(e) => name_member(alloc, e, token),
    }
}

#[tactic(auto, using(crate::proofs::ViewLemmas::views))]
fn finish(state: State, stack: &mut Vec<Frame>) -> Result<Option<Expr>, Stop>
    ensures { Gives kept_of result (kept_finished (state_of state) (frames_of stack.old.items)) }
{
    match state {
        State::Done(e) => match close(stack) {
            None => Ok(e),
            Some(frame) => refuse((frame, e)),
        },
        other => refuse(other),
    }
}

/// The expression that the tokens spell, and None in its place where it nests above 64.
pub fn parse(alloc: Global, tokens: Vec<Token>) -> Result<Option<Expr>, Stop>
    ensures { Gives kept_of result (kept_parsed (map token_of tokens.items)) }
{
    let mut stack = Vec::new(alloc);
    let mut state = State::Wanted;
    for token in tokens {
        state = turn(alloc, state, &mut stack, token)?;
    }
    finish(state, &mut stack)
}
