// Recorded answers.

use crate::answering::state_of;
use arm_value::Value;
use board_replays::{BoardFault, Noted};
use provider_trait::Answer;
use sample_boards::parts::{nothing, with};
use std::alloc::{AllocError, Global};

// The recorded answer that a line says, as `TASK BODY`: the put was begun with this body by worker 9, and was stored.
fn stored(alloc: Global, line: &str) -> Option<Noted> {
    let (task, text) = line.split_once(' ').unwrap_or((line, ""));
    let task = task.parse().ok()?;
    let body = Value::from_json(alloc, text.as_bytes()).ok()?;
    match state_of(alloc, &body) {
        Some(state) => Some(Noted {
            task,
            worker: 9,
            body,
            answer: Answer::Stored(state),
        }),
        None => nothing(body),
    }
}

/// The recorded answers of a row, each in a line after `<- `.
pub fn recorded(alloc: Global, row: &str) -> Option<Vec<Noted>> {
    let mut answers = Some(Vec::new(alloc));
    for line in row.lines() {
        match line.strip_prefix("<- ") {
            Some(line) => answers = with(answers, stored(alloc, line)),
            None => {}
        }
    }
    answers
}

/// Adds a line: why there is no board.
pub fn push_fault(out: &mut String, fault: &BoardFault) -> Result<(), AllocError> {
    match fault {
        BoardFault::BadAnswer(place) => writeln!(out, "bad answer {place}"),
        BoardFault::OutOfMemory => out.push_str("out of memory\n"),
    }
}
