// Boards that go on after recorded answers.

use arm_value::{Fields, Text, Value};
use board_replays::{BoardFault, Noted};
use deploy_core::Board;
use given_plans::GivenPlan;
use provider_trait::Answer;
use sample_boards::following::{follow_all, opened, state};
use sample_boards::parts::{letting_go, with};
use sample_boards::plans::plan;
use std::alloc::Global;
use std::test::Fail;

// The stored answer to the put of a task.
fn stored(alloc: Global, task: u32) -> Option<Noted> {
    let state = state(alloc)?;
    Some(Noted {
        task,
        worker: 3,
        body: Value::Object(Fields::new()),
        answer: Answer::Stored(state),
    })
}

// The refusal of a task.
fn refused(alloc: Global, task: u32) -> Option<Noted> {
    let code = Text::of(alloc, "Quota").ok()?;
    Some(Noted {
        task,
        worker: 3,
        body: Value::Object(Fields::new()),
        answer: Answer::Refused(code),
    })
}

// The recorded answer that a line says: `stored TASK` or `refused TASK`.
fn noted(alloc: Global, line: &str) -> Option<Noted> {
    let (verb, task) = line.split_once(' ').unwrap_or((line, ""));
    match verb {
        "stored" => stored(alloc, task.parse().ok()?),
        "refused" => refused(alloc, task.parse().ok()?),
        _ => None,
    }
}

fn answers(alloc: Global, lines: &str) -> Option<Vec<Noted>> {
    let mut answers = Some(Vec::new(alloc));
    for line in lines.lines() {
        answers = with(answers, noted(alloc, line));
    }
    answers
}

const TASKS: &str = "enter 0\nput 0\nput 1\nput 2\nleave 0";

// Compares how many answers follow with the number that is wanted, where not all have to.
fn stopped(fault: &BoardFault, stops: Option<usize>) -> Result<(), Fail> {
    match fault {
        BoardFault::BadAnswer(place) => {
            if stops == Some(*place) {
                return Ok(());
            }
            Err(Fail::new(format_args!("{place} follow")))
        }
        BoardFault::OutOfMemory => Err(Fail::from("out of memory")),
    }
}

// Follows the lines on a board, or finds that its answers do not follow, with how many of them that do.
fn go_on(
    alloc: Global,
    opened: Result<Board<GivenPlan>, BoardFault>,
    lines: &str,
    stops: Option<usize>,
) -> Result<(), Fail> {
    match opened {
        Ok(board) => follow_all(alloc, board, lines),
        Err(fault) => letting_go(stopped(&fault, stops), fault),
    }
}

// The same of a board of three instances in batches of two, after recorded answers.
fn play(alloc: Global, recorded: &str, lines: &str, stops: Option<usize>) -> Result<(), Fail> {
    let plan = plan(alloc, 1, TASKS)?;
    match answers(alloc, recorded) {
        Some(answers) => go_on(alloc, opened(alloc, plan, answers), lines, stops),
        None => letting_go(Err(Fail::from("no answers")), plan),
    }
}

#[test]
fn a_board_goes_on_after_its_answers(rt: HostRuntime) -> Result<(), Fail> {
    play(
        rt.alloc(),
        "stored 2\nstored 1",
        "history -> enter 0, begin 2 3, stored 2, begin 1 3, stored 1, crash\nnext -> begin 3\nstore 3\nnext -> end",
        None,
    )
}

#[test]
fn answers_after_a_refusal_come_last(rt: HostRuntime) -> Result<(), Fail> {
    play(
        rt.alloc(),
        "refused 2\nstored 1",
        "history -> enter 0, begin 2 3, begin 1 3, refused 2 Quota, stored 1, crash\nnext -> end",
        None,
    )
}

#[test]
fn an_answer_before_what_it_needs_does_not_follow(rt: HostRuntime) -> Result<(), Fail> {
    play(rt.alloc(), "stored 1\nstored 3", "", Some(1))
}

#[test]
fn a_first_answer_may_not_follow(rt: HostRuntime) -> Result<(), Fail> {
    play(rt.alloc(), "stored 3", "", Some(0))
}

#[test]
fn a_second_answer_of_a_task_does_not_follow(rt: HostRuntime) -> Result<(), Fail> {
    play(rt.alloc(), "stored 1\nstored 1", "", Some(1))
}
