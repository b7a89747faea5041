//! A board follows lines.
ghost use Rattle.given_plans.specs.Given.{IsGiven};

use crate::parts::letting_go;
use crate::telling::told;
use arm_value::{Fields, OutOfMemory, Text, Value};
use board_replays::{BoardFault, Noted};
use dealer_trait::Next;
use deploy_core::Board;
use given_plans::{GivenPlan, is_open};
use provider_trait::{Answer, State};
use std::alloc::{AllocError, Global};
use std::test::Fail;

/// The state of what is put: an empty object.
pub fn state(alloc: Global) -> Option<State> {
    State::of(alloc, Value::Object(Fields::new())).ok()
}

/// The board of a plan, after recorded answers.
///
/// # Errors
///
/// How many of the answers follow, where not all do; or there is no memory.
pub fn opened(
    alloc: Global,
    plan: GivenPlan,
    answers: Vec<Noted>,
) -> Result<Board<GivenPlan>, BoardFault>
    requires { IsGiven plan }
{
    match plan.start_needs(alloc) {
        Ok(needs) => Board::open(alloc, plan, needs.as_slice(), answers),
        Err(_) => letting_go(Err(BoardFault::OutOfMemory), (plan, answers)),
    }
}

/// The board of a plan of which nothing has happened.
///
/// # Errors
///
/// There is no memory.
pub fn fresh(alloc: Global, plan: GivenPlan) -> Result<Board<GivenPlan>, Fail>
    requires { IsGiven plan }
{
    match opened(alloc, plan, Vec::new(alloc)) {
        Ok(board) => Ok(board),
        Err(fault) => letting_go(Err(Fail::from("no board")), fault),
    }
}

fn write_next(out: &mut String, next: &Result<Next, OutOfMemory>) -> Result<(), AllocError> {
    match next {
        Ok(Next::Begun(job)) => write!(out, "begin {}", job.task()),
        Ok(Next::Wait) => out.push_str("wait"),
        Ok(Next::End) => out.push_str("end"),
        Err(_) => out.push_str("out of memory"),
    }
}

// What a board says that is asked for a job.
fn said(alloc: Global, next: &Result<Next, OutOfMemory>) -> Result<String, AllocError> {
    let mut text = String::new(alloc);
    write_next(&mut text, next)?;
    Ok(text)
}

/// Fails unless the text is the one that is wanted.
pub fn compare(found: &str, wanted: &str) -> Result<(), Fail> {
    if found == wanted {
        return Ok(());
    }
    Err(Fail::new(format_args!("{wanted} but {found}")))
}

/// Asks the board for a job of worker 7, and compares what it says: `begin TASK`, `wait` or `end`.
pub fn ask(alloc: Global, board: &mut Board<GivenPlan>, wanted: &str) -> Result<(), Fail> {
    let next = board.next(alloc, 7);
    let said = letting_go(said(alloc, &next), next)?;
    compare(said.as_str(), wanted)
}

/// Compares what has happened with a text, as `enter 0, begin 1 7, stored 1`.
pub fn matches(alloc: Global, board: &Board<GivenPlan>, wanted: &str) -> Result<(), Fail> {
    let told = told(alloc, board.history())?;
    compare(told.as_str(), wanted)
}

fn not_open() -> Result<(), Fail> {
    Err(Fail::from("no open Begin"))
}

/// What is put by the task is stored. Fails where no Begin of it is open.
pub fn store(alloc: Global, board: &mut Board<GivenPlan>, task: u32) -> Result<(), Fail> {
    if !is_open(board.history(), task) {
        return not_open();
    }
    match state(alloc) {
        Some(state) => {
            board.answer(task, Answer::Stored(state));
            Ok(())
        }
        None => Err(Fail::from("out of memory")),
    }
}

/// The put of the task is refused. Fails where no Begin of it is open.
pub fn refuse(alloc: Global, board: &mut Board<GivenPlan>, task: u32) -> Result<(), Fail> {
    if !is_open(board.history(), task) {
        return not_open();
    }
    let code = Text::of(alloc, "Quota")?;
    board.answer(task, Answer::Refused(code));
    Ok(())
}

/// The job of the task is given back. Fails where no Begin of it is open.
pub fn give_back(board: &mut Board<GivenPlan>, task: u32) -> Result<(), Fail> {
    if !is_open(board.history(), task) {
        return not_open();
    }
    board.back(task);
    Ok(())
}

// Does what the line says.
fn follow(alloc: Global, board: &mut Board<GivenPlan>, line: &str) -> Result<(), Fail> {
    let (verb, rest) = line.split_once(' ').unwrap_or((line, ""));
    let (_, wanted) = rest.split_once("> ").unwrap_or(("", ""));
    match verb {
        "next" => ask(alloc, board, wanted),
        "store" => store(alloc, board, rest.parse()?),
        "refuse" => refuse(alloc, board, rest.parse()?),
        "back" => give_back(board, rest.parse()?),
        "history" => matches(alloc, board, wanted),
        _ => Err(Fail::from("no such line")),
    }
}

/// Follows each line: `next -> ANSWER`, `store TASK`, `refuse TASK`, `back TASK`, or `history -> EVENTS`.
///
/// # Errors
///
/// The board does something else than the lines say, or there is no memory.
pub fn follow_lines(alloc: Global, board: &mut Board<GivenPlan>, lines: &str) -> Result<(), Fail> {
    for line in lines.lines() {
        follow(alloc, board, line)?;
    }
    Ok(())
}

/// The same, of a board that is not used any more.
///
/// # Errors
///
/// The board does something else than the lines say, or there is no memory.
pub fn follow_all(alloc: Global, mut board: Board<GivenPlan>, lines: &str) -> Result<(), Fail> {
    let followed = follow_lines(alloc, &mut board, lines);
    letting_go(followed, board)
}
