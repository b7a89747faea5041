// Tables: a text of rows, each with what is asked after and what is answered.

use crate::answers::{Question, say};
use std::alloc::{AllocError, Global};
use std::test::Fail;

fn add_times(out: &mut String, part: &str, times: usize) -> Result<(), AllocError> {
    for _ in 0..times {
        out.push_str(part)?;
    }
    Ok(())
}

// Adds what is between `«` and `»`: a count, `:`, and a part that is repeated that often.
fn add_repeated(out: &mut String, repeated: &str) -> Result<(), AllocError> {
    let (times, part) = repeated
        .split_once(':')
        .unwrap_or(("1", "a part without its number"));
    match times.parse::<usize>() {
        Ok(times) => add_times(out, part, times),
        Err(_) => out.push_str("no number"),
    }
}

fn add_piece(out: &mut String, piece: &str) -> Result<(), AllocError> {
    let Some((repeated, plain)) = piece.split_once('»') else {
        return out.push_str(piece);
    };
    add_repeated(out, repeated)?;
    out.push_str(plain)
}

// Adds the text with each part `«n:part»` written n times.
fn spread(out: &mut String, text: &str) -> Result<(), AllocError> {
    for piece in text.split('«') {
        add_piece(out, piece)?;
    }
    Ok(())
}

// Fails where something else is found than wanted, with the question.
fn compare_texts(asked: &str, found: &str, wanted: &str) -> Result<(), Fail> {
    if found == wanted {
        return Ok(());
    }
    Err(Fail::new(format_args!("{asked} => {wanted} but {found}")))
}

/// Compares what is answered with what is wanted, up to the end of its last line.
pub fn compare_one(
    alloc: Global,
    question: Question,
    asked: &str,
    wanted: &str,
) -> Result<(), Fail> {
    let mut found = String::new(alloc);
    say(&mut found, alloc, question, asked)?;
    compare_texts(
        asked,
        found.as_str(),
        wanted.strip_suffix('\n').unwrap_or(wanted),
    )
}

// Compares what is answered with what the row says after ` => `.
fn compare_row(alloc: Global, question: Question, row: &str) -> Result<(), Fail> {
    let mut text = String::new(alloc);
    spread(&mut text, row)?;
    let text = text.as_str();
    let (asked, wanted) = text.split_once(" => ").unwrap_or((text, "an answer"));
    compare_one(alloc, question, asked, wanted)
}

/// Puts the question to each row of the table, which are so many. A row begins with `§`.
pub fn compare(alloc: Global, question: Question, table: &str, rows: usize) -> Result<(), Fail> {
    let mut compared = 0usize;
    for row in table.split('§') {
        if !row.is_empty() {
            compare_row(alloc, question, row)?;
            compared = compared.saturating_add(1);
        }
    }
    if compared == rows {
        return Ok(());
    }
    Err(Fail::new(format_args!("{rows} rows but {compared}")))
}

/// The answer; the part is dropped.
pub fn letting_go<T: Drop, R>(answer: R, _part: T) -> R {
    answer
}
