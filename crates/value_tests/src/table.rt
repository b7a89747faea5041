// Tables: a line has what is asked, and after an arrow the wanted answer.

use crate::answers::{Question, say};
use std::alloc::{AllocError, Global};
use std::test::Fail;

/// Fails where another text is found than wanted, with the question.
pub fn compare(asked: &str, found: &str, wanted: &str) -> Result<(), Fail> {
    if found == wanted {
        return Ok(());
    }
    Err(Fail::new(format_args!("{asked} -> {wanted} but {found}")))
}

fn check_line(alloc: Global, question: Question, line: &str) -> Result<(), Fail> {
    let (asked, wanted) = line.split_once(" -> ").unwrap_or((line, "a wanted answer"));
    let mut found = String::new(alloc);
    say(&mut found, alloc, question, asked)?;
    compare(asked, found.as_str(), wanted)
}

/// Fails at the first line whose answer is another than the wanted one.
pub fn check(alloc: Global, question: Question, table: &str) -> Result<(), Fail> {
    for line in table.lines() {
        check_line(alloc, question, line)?;
    }
    Ok(())
}

/// The two words of a text, with a blank between them.
pub fn two(text: &str) -> (&str, &str) {
    text.split_once(' ').unwrap_or((text, ""))
}

/// Adds `true` or `false`.
pub fn say_truth(out: &mut String, truth: bool) -> Result<(), AllocError> {
    out.push_str(if truth { "true" } else { "false" })
}

/// The answer; the part is dropped.
pub fn letting_go<T: Drop, R>(answer: R, _part: T) -> R {
    answer
}
