// Tables of files.

use crate::declarations::{self, declared_in};
use crate::fitting::first_misfit;
use crate::{names, typing};
use bicep_decorators::bad_decorator;
use bicep_lexer::{LexFault, Token, tokens};
use bicep_misplaced::misplaced;
use bicep_parser::{File, parse};
use bicep_symbols::{FileNames, NameFault, names_of};
use bicep_type_texts::bad_type;
use std::alloc::{AllocError, Global};
use std::test::Fail;

/// What is asked of a file.
#[derive(Clone, Copy)]
pub enum Question {
    /// Its first bad decorator.
    Decorator,
    /// The first thing that is misplaced in it.
    Misplaced,
    /// The first name that is given twice in it.
    Repeated,
    /// The first unknown name in the value of its output, which a row is.
    Unknown,
    /// The first bad type text of its resources.
    TypeText,
    /// The first unknown name in a file that goes on so after a front.
    Declared,
    /// The first thing in such a file that is misplaced by what names stand for.
    Link,
    /// The first part of a file after another front whose type does not fit.
    Fits,
}

/// The answer; the part is dropped.
pub fn letting_go<T: Drop, R>(answer: R, _part: T) -> R {
    answer
}

fn file_of(alloc: Global, found: &Result<Vec<Token<'_>>, LexFault>) -> Option<File> {
    match found {
        Ok(found) => match parse(alloc, found.as_slice()) {
            Ok(file) => Some(file),
            Err(_) => None,
        },
        Err(_) => None,
    }
}

/// The file of a source; none where it is none.
pub fn parsed(alloc: Global, source: &str) -> Option<File> {
    let found = tokens(alloc, source);
    letting_go(file_of(alloc, &found), found)
}

// The name that is given twice.
fn twice_in(names: &Result<FileNames, NameFault>) -> Result<Option<usize>, AllocError> {
    match names {
        Ok(_) => Ok(None),
        Err(NameFault::Twice(at)) => Ok(Some(*at)),
        Err(NameFault::OutOfMemory) => Err(AllocError),
    }
}

// The first name that is given twice.
fn repeated(alloc: Global, file: &File) -> Result<Option<usize>, AllocError> {
    let names = names_of(alloc, &[], file.as_slice());
    letting_go(twice_in(&names), names)
}

fn asked(alloc: Global, question: Question, file: &File) -> Result<Option<usize>, AllocError> {
    match question {
        Question::Decorator => Ok(bad_decorator(file.as_slice())),
        Question::Misplaced => Ok(misplaced(file.as_slice())),
        Question::Repeated => repeated(alloc, file),
        Question::Unknown => names::unknown(alloc, file),
        Question::TypeText => bad_type(alloc, file.as_slice()),
        Question::Fits => first_misfit(alloc, file),
        _ => declared_in(alloc, question, file),
    }
}

fn is_of(
    alloc: Global,
    question: Question,
    file: &Option<File>,
    wanted: Option<usize>,
) -> Result<bool, AllocError> {
    match file {
        Some(file) => Ok(asked(alloc, question, file)? == wanted),
        None => Ok(false),
    }
}

/// Adds a row to the source before it, without its `^`, and returns the offset of the `^`.
pub fn add_row(source: &mut String, row: &str) -> Result<Option<usize>, AllocError> {
    let Some((before, after)) = row.split_once('^') else {
        source.push_str(row)?;
        return Ok(None);
    };
    source.push_str(before)?;
    let wanted = source.len();
    source.push_str(after)?;
    Ok(Some(wanted))
}

// What is before each row.
fn front_of(question: Question) -> &'static str {
    match question {
        Question::Unknown => "output o string = ",
        Question::Declared | Question::Link => declarations::FRONT,
        Question::Fits => typing::FRONT,
        _ => "",
    }
}

// Whether the row is answered as it says.
fn is_right(alloc: Global, question: Question, row: &str) -> Result<bool, AllocError> {
    let mut source = String::from_str(alloc, front_of(question))?;
    let wanted = add_row(&mut source, row)?;
    let file = parsed(alloc, source.as_str());
    letting_go(is_of(alloc, question, &file, wanted), file)
}

// Fails if the row is answered otherwise.
fn check_row(alloc: Global, question: Question, row: &str) -> Result<(), Fail> {
    if is_right(alloc, question, row)? {
        return Ok(());
    }
    Err(Fail::new(format_args!("{row}")))
}

/// Fails at the first row that is answered otherwise.
pub fn check(alloc: Global, question: Question, table: &str) -> Result<(), Fail> {
    for row in table.split("---\n") {
        check_row(alloc, question, row)?;
    }
    Ok(())
}

/// The same of a table with a row in each line.
pub fn check_lines(alloc: Global, question: Question, table: &str) -> Result<(), Fail> {
    for row in table.lines() {
        check_row(alloc, question, row)?;
    }
    Ok(())
}
