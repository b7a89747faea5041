// From tokens to a file.

ghost use Rattle.std.specs.Prelude.{◌≡◌, ◌≤◌, map, IfOk, IfErr};
ghost use Rattle.bicep_lexer.specs.Reading.{standing};
ghost use Rattle.bicep_tree.specs.Terminals.{placed};
ghost use Rattle.bicep_tree.specs.View.{file_of};
ghost use Rattle.bicep_tree.specs.Nesting.{file_nesting};
ghost use Rattle.bicep_tree.specs.Declarations.{Spells};
ghost use Rattle.bicep_machine.specs.Machine.{parsed};
ghost use Rattle.bicep_parser.specs.Answers.{Reads, Answers, fault_at};
ghost use Rattle.bicep_parser.specs.Refused.{Refuses, EndsAt, TellsPlace};
ghost use Rattle.bicep_parser.specs.declared.fault.ParseFault.TheVariants.{TooDeep};

use crate::depth::noted;
use crate::fault::ParseFault;
use crate::stepping::{finish, step};
use crate::stops::stopped;
use bicep_lexer::Token;
use bicep_machine::{Discard, Kept, MAX_PART_NESTING, State, empty_file};
use bicep_tree::{File, Statement, terminal_of};
use foundation::Stop;
use std::alloc::Global;

// The fault where reading stops at that place.
fn fault_at(stop: Stop, at: usize) -> ParseFault
    ensures { result ≡ fault_at stop at }
{
    match stop {
        Stop::Refused => ParseFault::NotAFile(at),
        Stop::OutOfMemory => ParseFault::OutOfMemory,
    }
}

// The offset after the last token.
fn end_of(tokens: &[Token]) -> usize
    ensures { EndsAt (map standing tokens.now) result }
{
    match tokens.last() {
        None => 0,
        Some(token) => token.at.saturating_add(token.text.len()),
    }
}

// The statements, and where it was known that one nests too deep.
fn read(alloc: Global, tokens: &[Token]) -> Result<(Kept<Vec<Statement>>, usize), ParseFault>
    ensures reads { Reads result (parsed 64 (map placed (map standing tokens.now))) }
    ensures deep { IfOk result (λ r. TellsPlace (map standing tokens.now) (TooDeep r.1)) }
    ensures place { IfErr result (TellsPlace (map standing tokens.now)) }
{
    let end = end_of(tokens);
    let mut deep = None;
    let mut stack = match empty_file(alloc) {
        Ok(stack) => stack,
        Err(_) => return Err(ParseFault::OutOfMemory),
    };
    let mut state = State::Between;
    let mut inside = false;
    for token in tokens {
        let terminal = match terminal_of(alloc, token) {
            Ok(terminal) => terminal,
            Err(_) => return stopped(ParseFault::OutOfMemory, (state, stack)),
        };
        match step(alloc, state, inside, &mut stack, token.at, terminal) {
            Err(stop) => return stopped(fault_at(stop, token.at), stack),
            Ok(next) => {
                state = next.state;
                inside = next.inside;
            }
        }
        deep = noted(deep, &state, stack.as_slice(), token.at);
    }
    match finish(alloc, state, &mut stack) {
        Err(stop) => stopped(fault_at(stop, end), stack),
        Ok(statements) => {
            stack.discard();
            Ok((statements, deep.unwrap_or(end)))
        }
    }
}

// The file that the machine reads.
fn parsed(alloc: Global, tokens: &[Token]) -> Result<File, ParseFault>
    ensures answers { Answers result (parsed 64 (map placed (map standing tokens.now))) }
    ensures place { IfErr result (TellsPlace (map standing tokens.now)) }
{
    match read(alloc, tokens) {
        Err(fault) => Err(fault),
        Ok((statements, place)) => {
            if statements.depth > MAX_PART_NESTING {
                stopped(ParseFault::TooDeep(place), statements)
            } else {
                Ok(statements.part)
            }
        }
    }
}

/// The file that the tokens of a source spell.
///
/// Each token is looked at once. No nesting of a source makes it recurse, and nothing that nests above
/// 64 is kept.
///
/// # Errors
///
/// - `OutOfMemory`: memory was refused.
/// - `NotAFile`: exactly where the tokens spell no file, unless memory was refused.
/// - `TooDeep`: exactly where the tokens spell a file in which an expression nests above 64
///   (`specs/Nesting` of `bicep_tree`), unless memory was refused.
///
/// The place of `NotAFile` and of `TooDeep` is an offset in bytes, as `TellsPlace` of `specs/Refused` says.
pub fn parse(alloc: Global, tokens: &[Token]) -> Result<File, ParseFault>
    ensures spelled { IfOk result (λ f. Spells (file_of f.items) (map standing tokens.now)) }
    ensures shallow { IfOk result (λ f. file_nesting (file_of f.items) ≤ 64) }
    ensures refused { IfErr result (Refuses (map standing tokens.now)) }
    ensures place { IfErr result (TellsPlace (map standing tokens.now)) }
{
    parsed(alloc, tokens)
}
