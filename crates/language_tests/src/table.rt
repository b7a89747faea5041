// Tables: a line has what is asked, and after an arrow the wanted answer; without an arrow, that is what is asked.

use crate::answers::{Question, say};
use std::alloc::Global;
use std::test::Fail;

// Fails where something else is found than wanted, with the question.
fn compare(asked: &str, found: &str, wanted: &str) -> Result<(), Fail> {
    if found == wanted {
        return Ok(());
    }
    Err(Fail::new(format_args!("{asked} -> {wanted} but {found}")))
}

/// Compares the answer with the wanted one.
pub fn check_one(alloc: Global, question: Question, asked: &str, wanted: &str) -> Result<(), Fail> {
    let mut found = String::new(alloc);
    say(&mut found, alloc, question, asked)?;
    compare(asked, found.as_str(), wanted)
}

// Before a bar is the answer in the first form of templates, and after it that in the second; one alone is the answer
// in both.
fn wanted_in(question: Question, wanted: &str) -> &str {
    let (one, two) = wanted.split_once(" | ").unwrap_or((wanted, wanted));
    match question {
        Question::Expression => one,
        Question::InFormTwo => two,
        _ => wanted,
    }
}

/// Fails at the first line whose answer is another than the wanted one.
pub fn check(alloc: Global, question: Question, table: &str) -> Result<(), Fail> {
    for line in table.lines() {
        let (asked, wanted) = line.split_once(" -> ").unwrap_or((line, line));
        check_one(alloc, question, asked, wanted_in(question, wanted))?;
    }
    Ok(())
}

/// The answer; the part is dropped.
pub fn letting_go<T: Drop, R>(answer: R, _part: T) -> R {
    answer
}
