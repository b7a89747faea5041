// What books take and refuse, note by note.

use crate::jobs::{compare, delete_job, letting_go};
use arm_value::{Text, Value};
use dealer_trait::{Book, BookFault, NoBook, Note};
use driver_fakes::MemBook;
use provider_trait::{Answer, Job, State};
use std::alloc::Global;
use std::test::Fail;

// The answer of this word.
fn answer(alloc: Global, word: &str) -> Result<Answer, Fail> {
    if word == "state" {
        return Ok(Answer::Stored(State::of(alloc, Value::Bool(true))?));
    }
    if word == "gone" {
        return Ok(Answer::Gone);
    }
    Ok(Answer::Refused(Text::of(alloc, word)?))
}

// What a book said of a note.
fn said(alloc: Global, noted: Result<(), BookFault>) -> Result<String, Fail> {
    match noted {
        Ok(()) => Ok(String::from_str(alloc, "ok")?),
        Err(BookFault::Full { length, needed }) => Ok(format!(in alloc; "{length} {needed}")?),
        Err(BookFault::DiskFault) => Ok(String::from_str(alloc, "disk")?),
        Err(BookFault::MustReopen) => Ok(String::from_str(alloc, "reopen")?),
    }
}

fn check_said(
    alloc: Global,
    noted: Result<(), BookFault>,
    line: &str,
    wanted: &str,
) -> Result<(), Fail> {
    let said = said(alloc, noted)?;
    compare(line, said.as_str(), wanted)
}

// Notes the answer of a line's first word, and compares what the book says with the rest.
fn follow<B: Book>(alloc: Global, book: &mut B, job: &Job, line: &str) -> Result<(), Fail> {
    let (word, wanted) = line.split_once(" -> ").unwrap_or((line, ""));
    let answer = answer(alloc, word)?;
    let noted = letting_go(book.note(job, &answer), answer);
    check_said(alloc, noted, line, wanted)
}

fn follow_lines<B: Book>(alloc: Global, book: &mut B, job: &Job, lines: &str) -> Result<(), Fail> {
    for line in lines.lines() {
        follow(alloc, book, job, line)?;
    }
    Ok(())
}

fn follow_all<B: Book>(alloc: Global, book: &mut B, lines: &str) -> Result<(), Fail> {
    let job = delete_job(alloc)?;
    letting_go(follow_lines(alloc, book, &job, lines), job)
}

// The numbers of the notes that fail.
fn fails(alloc: Global, first: Option<u64>) -> Result<Vec<u64>, Fail> {
    let mut fails = Vec::new(alloc);
    if let Some(call) = first {
        fails.push(call)?;
    }
    Ok(fails)
}

// The first part of a deletion's record has 111 bytes, so a note of it takes 129 and its second part.
const FILLING: &str = "gone -> ok
state -> 129 262
Quota -> 129 263
gone -> ok
gone -> 258 387";

#[test]
fn a_book_is_full_by_bytes(rt: HostRuntime) -> Result<(), Fail> {
    let mut book = MemBook::new(rt.alloc(), 261, fails(rt.alloc(), None)?)?;
    let followed = follow_all(rt.alloc(), &mut book, FILLING);
    let refused = (book.refusals(), book.first_refusal());
    letting_go(followed, book)?;
    let (length, needed) = (129, 262);
    assert!(rt; refused == (3, Some(BookFault::Full { length, needed })));
    Ok(())
}

const BREAKING: &str = "gone -> ok
state -> disk
gone -> reopen
Quota -> reopen";

// How many items there are; they are dropped.
fn count<T: Drop>(items: Vec<T>) -> usize {
    items.len()
}

// How many notes the book has, and what it has refused.
type Kept = (usize, u64, Option<BookFault>);

fn kept(alloc: Global, book: &MemBook) -> Result<Kept, Fail> {
    let notes = count(book.notes(alloc)?);
    Ok((notes, book.refusals(), book.first_refusal()))
}

// Makes a book that fails at its second note, and follows the lines.
fn broken(alloc: Global) -> Result<MemBook, Fail> {
    let mut book = MemBook::new(alloc, 1000, fails(alloc, Some(1))?)?;
    match follow_all(alloc, &mut book, BREAKING) {
        Ok(()) => Ok(book),
        Err(fail) => letting_go(Err(fail), book),
    }
}

#[test]
fn a_book_must_be_opened_again_after_a_fault(rt: HostRuntime) -> Result<(), Fail> {
    let book = broken(rt.alloc())?;
    let kept = letting_go(kept(rt.alloc(), &book), book)?;
    assert!(rt; kept == (1, 3, Some(BookFault::DiskFault)));
    Ok(())
}

fn text_of(bytes: &[u8]) -> &str {
    match str::from_utf8(bytes) {
        Ok(text) => text,
        Err(_) => "no text",
    }
}

// Compares a note with its kind and its second part.
fn check_note(note: Option<&Note>, kind: u8, second: &str) -> Result<(), Fail> {
    match note {
        Some(note) => if note.kind == kind {
            compare("note", text_of(note.second.as_slice()), second)
        } else {
            Err(Fail::from("another kind"))
        },
        None => Err(Fail::from("no note")),
    }
}

fn check_notes(notes: &[Note]) -> Result<(), Fail> {
    check_note(notes.get(0), 6, "true")?;
    check_note(notes.get(1), 7, "Quota")?;
    check_note(notes.get(2), 8, "")
}

fn check_book(alloc: Global, book: &MemBook) -> Result<(), Fail> {
    let notes = book.notes(alloc)?;
    letting_go(check_notes(notes.as_slice()), notes)
}

const THREE: &str = "state -> ok\nQuota -> ok\ngone -> ok";

// Notes three answers, and compares the notes.
fn check_three(alloc: Global, book: &mut MemBook) -> Result<(), Fail> {
    follow_all(alloc, book, THREE)?;
    check_book(alloc, book)
}

#[test]
fn notes_are_records(rt: HostRuntime) -> Result<(), Fail> {
    let mut book = MemBook::new(rt.alloc(), 1000, fails(rt.alloc(), None)?)?;
    letting_go(check_three(rt.alloc(), &mut book), book)
}

#[test]
fn no_book_takes_every_note(rt: HostRuntime) -> Result<(), Fail> {
    follow_all(rt.alloc(), &mut NoBook, THREE)
}
