// Reads the files, and compares what they declare and their parts.

use crate::heads::add_part;
use crate::parts::{part_at, statement_of, symbol_of, word_of};
use crate::sample::Sample;
use crate::{hosts, networks, plain, stored, wholes};
use bicep_lexer::tokens;
use bicep_parser::parse;
use bicep_tree::{File, Statement};
use std::alloc::{AllocError, Global};
use std::test::Fail;

// The file that the source is.
fn file_of(alloc: Global, source: &str) -> Result<File, Fail> {
    let found = tokens(alloc, source)?;
    Ok(letting_go(parse(alloc, found.as_slice()), found)?)
}

fn add_title(out: &mut String, statement: &Statement) -> Result<(), AllocError> {
    out.push_str(word_of(&statement.declaration))?;
    let symbol = symbol_of(&statement.declaration);
    if !symbol.is_empty() {
        out.push_str(" ")?;
        out.push_str(symbol)?;
    }
    Ok(())
}

// How many statements a file has, and the word and the symbol of each.
fn declared(alloc: Global, file: &[Statement]) -> Result<String, Fail> {
    let count = file.len();
    let mut out = format!(in alloc; "{count}: ")?;
    let mut begun = false;
    for statement in file {
        if begun {
            out.push_str(", ")?;
        }
        add_title(&mut out, statement)?;
        begun = true;
    }
    Ok(out)
}

// The word, the symbol and the path of a part.
fn place_of(place: &str) -> (&str, &str, &str) {
    let (word, rest) = place.split_once(' ').unwrap_or((place, ""));
    let (symbol, path) = rest.split_once(' ').unwrap_or((rest, ""));
    (word, symbol, path)
}

// The shape of the part of a file at that place.
fn shape_of(alloc: Global, file: &[Statement], place: &str) -> Result<String, Fail> {
    let (word, symbol, path) = place_of(place);
    let Some(statement) = statement_of(file, word, symbol) else {
        return Err(Fail::from("no such declaration"));
    };
    let Some(part) = part_at(statement, path) else {
        return Err(Fail::from("no such part"));
    };
    let mut out = String::new(alloc);
    add_part(&mut out, part)?;
    Ok(out)
}

// Compares the shape of the part of a line.
fn compare_part(alloc: Global, file: &[Statement], line: &str) -> Result<(), Fail> {
    let (place, wanted) = line.split_once(" => ").unwrap_or((line, "a wanted shape"));
    let found = shape_of(alloc, file, place)?;
    compare(place, found.as_str(), wanted)
}

fn compare_parts(alloc: Global, file: &[Statement], parts: &str) -> Result<(), Fail> {
    for line in parts.lines() {
        compare_part(alloc, file, line)?;
    }
    Ok(())
}

fn compare_declared(alloc: Global, file: &[Statement], wanted: &str) -> Result<(), Fail> {
    let found = declared(alloc, file)?;
    compare("what is declared", found.as_str(), wanted)
}

fn compare_file(alloc: Global, file: &[Statement], sample: &Sample) -> Result<(), Fail> {
    compare_declared(alloc, file, sample.1)?;
    compare_parts(alloc, file, sample.2)
}

fn compare_sample(alloc: Global, sample: &Sample) -> Result<(), Fail> {
    let file = file_of(alloc, sample.0)?;
    letting_go(compare_file(alloc, file.as_slice(), sample), file)
}

fn compare_all(alloc: Global, samples: &[Sample]) -> Result<(), Fail> {
    for sample in samples {
        compare_sample(alloc, sample)?;
    }
    Ok(())
}

/// Fails where something else is found than wanted.
pub(crate) fn compare(asked: &str, found: &str, wanted: &str) -> Result<(), Fail> {
    if found == wanted {
        return Ok(());
    }
    Err(Fail::new(format_args!("{asked} => {wanted} but {found}")))
}

/// The answer; the part is dropped.
pub(crate) fn letting_go<T: Drop, R>(answer: R, _part: T) -> R {
    answer
}

#[test]
fn stored_files_are_read_as_they_are_written(rt: HostRuntime) -> Result<(), Fail> {
    compare_all(rt.alloc(), &stored::SAMPLES)
}

#[test]
fn networks_are_read_as_they_are_written(rt: HostRuntime) -> Result<(), Fail> {
    compare_all(rt.alloc(), &networks::SAMPLES)
}

#[test]
fn hosts_are_read_as_they_are_written(rt: HostRuntime) -> Result<(), Fail> {
    compare_all(rt.alloc(), &hosts::SAMPLES)
}

#[test]
fn wholes_are_read_as_they_are_written(rt: HostRuntime) -> Result<(), Fail> {
    compare_all(rt.alloc(), &wholes::SAMPLES)
}

#[test]
fn plain_values_are_read_as_they_are_written(rt: HostRuntime) -> Result<(), Fail> {
    compare_all(rt.alloc(), &plain::SAMPLES)
}
