// One token, and the end of the tokens.
#![tactic(auto, using(bicep_machine::proofs::StackLemmas::stacks))]

ghost use Rattle.std.specs.Prelude.{◌≡◌, option_and_then};
ghost use Rattle.bicep_tree.specs.Forms.{is_newline};
ghost use Rattle.bicep_tree.specs.declared.leaf.Namespace.{Namespace};
ghost use Rattle.bicep_machine.specs.Closing.{closed, newline_on};
ghost use Rattle.bicep_machine.specs.Machine.{rejoined, paused_step, transition, step, ended, ended_by};
ghost use Rattle.bicep_machine.specs.Machine.{ended_between, finished};
ghost use Rattle.bicep_machine.specs.Stack.{typed, qualified};
ghost use Rattle.foundation.specs.Stopping.{Gives};
ghost use Rattle.bicep_machine.specs.Views.{kept, kept_decorators, kept_statement, kept_statements, frames_of};
ghost use Rattle.bicep_machine.specs.Views.{state_of, next_of};

use crate::stops::stopped;
use bicep_expressions::{
    access_on, ask, begin_arguments, end_at_late_colon, end_at_newline, go_on, go_on_name,
    go_on_qualified, item, qualify, want_on,
};
use bicep_machine::{
    Discard, Frame, Kept, Next, State, Word, access_of, close, closed, named, refuse, run_out,
    statement_of, with_expression, with_statement,
};
use bicep_objects::{
    begin_body, begin_condition, begin_guarded, begin_looped_body, end_loop, go_on_among,
    go_on_label, member, past_member,
};
use bicep_statements::{
    begin_decorator, begin_loop, between, end_decorator, end_statement, go_on_declaration,
    go_on_decorator, go_on_existing, go_on_header, go_on_typed, name_declaration, name_decorator,
    name_index, name_item, name_loop, name_spaced_decorator, parameter, past_decorators, past_item,
    past_names,
};
use bicep_tree::{Access, Decorator, Expr, Name, Statement, Terminal, TypeName};
use foundation::Stop;
use std::alloc::Global;

// A token after a newline that ended an expression.
fn rejoin(
    alloc: Global,
    next: Next,
    stack: &mut Vec<Frame>,
    at: usize,
    terminal: Terminal,
) -> Result<Next, Stop>
    ensures { Gives (λ n. next_of n stack.new.items) result
        (rejoined 64 (next_of next stack.old.items) at terminal) }
{
    match next.state {
        State::Item => item(alloc, stack, at, terminal),
        State::Member => member(alloc, stack, at, terminal),
        State::Between => between(alloc, at, terminal),
        other => refuse((other, terminal)),
    }
}

// A token after an expression that a newline ends.
fn end_paused(
    alloc: Global,
    e: Kept<Box<Expr>>,
    stack: &mut Vec<Frame>,
    at: usize,
    terminal: Terminal,
) -> Result<Next, Stop>
    ensures { Gives (λ n. next_of n stack.new.items) result (option_and_then
        (λ q. rejoined 64 q at terminal) (newline_on 64 (closed 64 0 (kept e) (frames_of stack.old.items)))) }
{
    match end_at_newline(alloc, e, stack) {
        Ok(next) => rejoin(alloc, next, stack, at, terminal),
        Err(stop) => stopped(stop, terminal),
    }
}

// An expression and a newline that is not skipped.
fn go_on_paused(
    alloc: Global,
    e: Kept<Box<Expr>>,
    stack: &mut Vec<Frame>,
    at: usize,
    terminal: Terminal,
) -> Result<Next, Stop>
    ensures { Gives (λ n. next_of n stack.new.items) result
        (paused_step 64 (kept e) (frames_of stack.old.items) at terminal) }
{
    match terminal {
        Terminal::Newline => Ok(Next {
            state: State::Paused(e),
            inside: false,
        }),
        Terminal::Question => ask(alloc, false, e, stack),
        Terminal::Colon => end_at_late_colon(alloc, e, stack),
        other => end_paused(alloc, e, stack, at, other),
    }
}

// A token that is no skipped newline.
fn transition(
    alloc: Global,
    state: State,
    inside: bool,
    stack: &mut Vec<Frame>,
    at: usize,
    token: Terminal,
) -> Result<Next, Stop>
    ensures { Gives (λ n. next_of n stack.new.items) result
        (transition 64 (state_of state) inside (frames_of stack.old.items) at token) }
{
    match state {
        State::Wanted(skips) => want_on(alloc, skips, inside, stack, at, token),
        State::First => begin_arguments(alloc, inside, stack, at, token),
        State::Named(name) => go_on_name(alloc, name, inside, stack, at, token),
        State::Qualifying(space, from) => qualify(space, from, inside, stack, at, token),
        State::Qualified(space, from, name) => {
            go_on_qualified(alloc, space, from, name, inside, stack, token)
        }
        State::Dotted(access, e) => access_on(alloc, access, e, inside, stack, at, token),
        State::Done(e) => go_on(alloc, e, inside, stack, token),
        State::Paused(e) => go_on_paused(alloc, e, stack, at, token),
        State::Item => item(alloc, stack, at, token),
        State::ForWanted(from) => begin_loop(from, token),
        State::NamesWanted(from) => name_loop(from, stack, at, token),
        State::OneWanted => name_item(at, token),
        State::OneNamed(item) => past_item(item, token),
        State::OtherWanted(item) => name_index(item, at, token),
        State::BothNamed(item, index) => past_names(item, index, stack, token),
        State::Member => member(alloc, stack, at, token),
        State::Labelled(label) => go_on_label(alloc, label, stack, at, token),
        State::PastMember(part) => past_member(alloc, part, stack, token),
        State::Among(from, names) => go_on_among(from, names, stack, token),
        State::Body => begin_body(alloc, stack, at, token),
        State::LoopedBody => begin_looped_body(alloc, stack, at, token),
        State::Condition(from) => begin_condition(from, stack, token),
        State::Guarded => begin_guarded(alloc, stack, at, token),
        State::BodyEnd(header, body) => end_loop(header, body, stack, token),
        State::AtSign(list, sign) => name_decorator(list, sign, at, token),
        State::DecoratorNamed(list, sign, name) => {
            go_on_decorator(alloc, list, sign, name, stack, token)
        }
        State::DecoratorSpaced(list, sign, from) => {
            name_spaced_decorator(list, sign, from, at, token)
        }
        State::DecoratorReady(list, sign, function) => {
            begin_decorator(alloc, list, sign, function, stack, token)
        }
        State::Decorated(list) => end_decorator(list, token),
        State::PastDecorators(list) => past_decorators(list, stack, at, token),
        State::Declaring(list, from, word) => name_declaration(list, from, word, stack, at, token),
        State::Declared(list, from, word, name) => {
            go_on_declaration(alloc, list, from, word, name, stack, at, token)
        }
        State::Typed(list, from, word, name, kind) => {
            go_on_typed(list, from, word, name, kind, stack, token)
        }
        State::Headed(header) => go_on_header(header, stack, token),
        State::Existed(header) => go_on_existing(header, stack, token),
        State::Between => between(alloc, at, token),
        State::PastStatement(statement) => end_statement(statement, stack, token),
    }
}

fn is_newline(terminal: &Terminal) -> bool
    ensures { result ≡ is_newline terminal.now }
{
    match terminal {
        Terminal::Newline => true,
        _ => false,
    }
}

/// One token, at its offset.
pub fn step(
    alloc: Global,
    state: State,
    inside: bool,
    stack: &mut Vec<Frame>,
    at: usize,
    terminal: Terminal,
) -> Result<Next, Stop>
    ensures { Gives (λ n. next_of n stack.new.items) result
        (step 64 (state_of state) inside (frames_of stack.old.items) (at, terminal)) }
{
    if inside && is_newline(&terminal) {
        terminal.discard();
        Ok(Next { state, inside })
    } else {
        transition(alloc, state, inside, stack, at, terminal)
    }
}

// The statements of a file in which nothing is open.
fn end_between(stack: &mut Vec<Frame>) -> Result<Kept<Vec<Statement>>, Stop>
    ensures { Gives kept_statements result (ended_between 64 (frames_of stack.old.items)) }
{
    match close(stack) {
        Some(Frame::InFile(statements)) => match close(stack) {
            None => Ok(statements),
            Some(frame) => refuse((frame, statements)),
        },
        other => refuse(other),
    }
}

// A file whose last statement this is.
#[tactic(auto, using(crate::proofs::StepLemmas::ends))]
fn end_with(
    statement: Kept<Statement>,
    stack: &mut Vec<Frame>,
) -> Result<Kept<Vec<Statement>>, Stop>
    ensures { Gives kept_statements result
        (ended 64 (kept_statement statement) (frames_of stack.old.items)) }
{
    match end_between(stack) {
        Ok(statements) => Ok(with_statement(statements, statement)?),
        Err(stop) => stopped(stop, statement),
    }
}

// The last expression.
fn end_expression(
    alloc: Global,
    e: Kept<Box<Expr>>,
    stack: &mut Vec<Frame>,
) -> Result<Kept<Vec<Statement>>, Stop>
    ensures { Gives kept_statements result
        (ended_by 64 (closed 64 0 (kept e) (frames_of stack.old.items))) }
{
    let e = closed(alloc, 0, e, stack)?;
    match close(stack) {
        Some(Frame::Assigned(decorators, assigned)) => {
            end_with(
                statement_of(decorators, with_expression(assigned, e)),
                stack,
            )
        }
        other => refuse((other, e)),
    }
}

// The last expression, which is a name of a name space.
fn end_qualified(
    alloc: Global,
    from: Name,
    name: Name,
    stack: &mut Vec<Frame>,
) -> Result<Kept<Vec<Statement>>, Stop>
    ensures { (space : Namespace) → Gives kept_statements result
        (finished 64 (qualified space from name) (frames_of stack.old.items)) }
{
    match named(alloc, from) {
        Ok(value) => {
            let member = access_of(alloc, value, Access::Member, name)?;
            end_expression(alloc, member, stack)
        }
        Err(_) => run_out(name),
    }
}

// A declaration with a type, which ends there if it is a parameter.
fn end_typed(
    decorators: Kept<Vec<Decorator>>,
    at: usize,
    word: Word,
    name: Name,
    kind: TypeName,
    stack: &mut Vec<Frame>,
) -> Result<Kept<Vec<Statement>>, Stop>
    ensures { Gives kept_statements result
        (finished 64 (typed (kept_decorators decorators) at word name kind)
        (frames_of stack.old.items)) }
{
    match word {
        Word::Param => end_with(parameter(decorators, at, name, kind), stack),
        _ => refuse((decorators, name)),
    }
}

/// The statements, where the tokens may end here.
pub fn finish(
    alloc: Global,
    state: State,
    stack: &mut Vec<Frame>,
) -> Result<Kept<Vec<Statement>>, Stop>
    ensures { Gives kept_statements result
        (finished 64 (state_of state) (frames_of stack.old.items)) }
{
    match state {
        State::Between => end_between(stack),
        State::PastStatement(statement) => end_with(statement, stack),
        State::Typed(decorators, at, word, name, kind) => {
            end_typed(decorators, at, word, name, kind, stack)
        }
        State::Named(name) => end_expression(alloc, named(alloc, name)?, stack),
        State::Qualified(_, from, name) => end_qualified(alloc, from, name, stack),
        State::Done(e) => end_expression(alloc, e, stack),
        State::Paused(e) => end_expression(alloc, e, stack),
        other => refuse(other),
    }
}
