// What is said of the symbols of files.
ghost use Rattle.std.specs.Prelude.{map};
ghost use Rattle.bicep_declared.specs.View.{declared_tree};
ghost use Rattle.bicep_circles.specs.Links.{links};
ghost use Rattle.bicep_circles.specs.Orders.{IsLinkOrder};

use crate::declarations::outputs;
use crate::rows::{letting_go, parsed};
use bicep_circles::symbol_order;
use bicep_declared::{Declared, DeclaredFile, declare_file};
use bicep_dependencies::dependencies;
use bicep_found::Stop;
use bicep_parser::File;
use bicep_states::{StateTable, has_entry, misplaced_variable, state_table};
use bicep_symbols::{Entry, FileNames, NameFault, names_of};
use depend_graph::Sorted;
use std::alloc::{AllocError, Global};
use std::collections::BTreeSet;
use std::test::Fail;

/// What is asked of the symbols of a file. Of variables that read state, also the offset of a misplaced for-expression.
#[derive(Clone, Copy)]
pub enum Mention {
    Circle,
    State(Option<usize>),
    Dependency,
}

// Writes the name of a symbol, after a space.
fn write_name(out: &mut String, entries: &[Entry], number: usize) -> Result<(), AllocError> {
    out.push_str(" ")?;
    match entries.get(number) {
        Some(entry) => out.push_str(entry.name.as_str()),
        None => out.push_str("?"),
    }
}

fn write_names(out: &mut String, entries: &[Entry], numbers: &[u32]) -> Result<(), AllocError> {
    for number in numbers {
        write_name(out, entries, *number as usize)?;
    }
    Ok(())
}

// Writes the variables that have an entry. Where the first misplaced for-expression is not at the place, words say so.
fn write_entries(
    out: &mut String,
    place: Option<usize>,
    entries: &[Entry],
    declarations: &[Declared],
    table: &StateTable,
) -> Result<(), AllocError> {
    if misplaced_variable(table, declarations) != place {
        out.push_str(" another place")?;
    }
    for number in 0..entries.len() {
        if has_entry(table, declarations, number) {
            write_name(out, entries, number)?;
        }
    }
    Ok(())
}

// Writes a symbol with its resources and modules, where it has some.
fn write_set(
    out: &mut String,
    entries: &[Entry],
    number: usize,
    set: &BTreeSet<usize>,
) -> Result<(), AllocError> {
    if set.is_empty() {
        return Ok(());
    }
    write_name(out, entries, number)?;
    out.push_str(":")?;
    for target in set {
        write_name(out, entries, *target)?;
    }
    out.push_str(";")
}

fn write_sets(
    out: &mut String,
    entries: &[Entry],
    sets: &[BTreeSet<usize>],
) -> Result<(), AllocError> {
    for (number, set) in sets.iter().enumerate() {
        write_set(out, entries, number, set)?;
    }
    Ok(())
}

fn write_ordered(
    alloc: Global,
    out: &mut String,
    question: Mention,
    entries: &[Entry],
    declarations: &[Declared],
    order: &[u32],
) -> Result<(), AllocError>
    requires { IsLinkOrder (links (map (λ e. e.kind) entries.now) (map declared_tree declarations.now)) order.now }
{
    match question {
        Mention::Circle => Ok(()),
        Mention::State(place) => {
            let table = state_table(alloc, entries, declarations, order)?;
            letting_go(
                write_entries(out, place, entries, declarations, &table),
                table,
            )
        }
        Mention::Dependency => {
            let sets = dependencies(alloc, entries, declarations, order)?;
            letting_go(write_sets(out, entries, sets.as_slice()), sets)
        }
    }
}

fn write_sorted(
    alloc: Global,
    out: &mut String,
    question: Mention,
    entries: &[Entry],
    declarations: &[Declared],
) -> Result<(), AllocError> {
    match symbol_order(alloc, entries, declarations)? {
        Sorted::Order(order) => {
            let ordered = order.as_slice();
            let answer = write_ordered(alloc, out, question, entries, declarations, ordered);
            letting_go(answer, order)
        }
        Sorted::Circle(numbers) => {
            letting_go(write_names(out, entries, numbers.as_slice()), numbers)
        }
    }
}

fn write_declared(
    alloc: Global,
    out: &mut String,
    question: Mention,
    names: &FileNames,
    declared: &Result<DeclaredFile, Stop>,
) -> Result<(), AllocError> {
    let Ok(declared) = declared else {
        return out.push_str(" an unknown name");
    };
    let entries = names.entries.as_slice();
    write_sorted(
        alloc,
        out,
        question,
        entries,
        declared.declarations.as_slice(),
    )
}

fn write_named(
    alloc: Global,
    out: &mut String,
    question: Mention,
    names: &Result<FileNames, NameFault>,
    file: &File,
) -> Result<(), AllocError> {
    let Ok(names) = names else {
        return out.push_str(" a name that is given twice");
    };
    let outputs = outputs(alloc)?;
    let declared = declare_file(alloc, &names.symbols, outputs.as_slice(), file.as_slice());
    letting_go(
        write_declared(alloc, out, question, names, &declared),
        (declared, outputs),
    )
}

fn write_file(
    alloc: Global,
    out: &mut String,
    question: Mention,
    file: &Option<File>,
) -> Result<(), AllocError> {
    let Some(file) = file else {
        return out.push_str(" no file");
    };
    let names = names_of(alloc, &[1, 1], file.as_slice());
    letting_go(write_named(alloc, out, question, &names, file), names)
}

fn write_answer(
    alloc: Global,
    out: &mut String,
    question: Mention,
    source: &str,
) -> Result<(), AllocError> {
    let file = parsed(alloc, source);
    letting_go(write_file(alloc, out, question, &file), file)
}

/// What is said of the symbols of a file.
pub fn answer(alloc: Global, question: Mention, source: &str) -> Result<String, AllocError> {
    let mut out = String::new(alloc);
    write_answer(alloc, &mut out, question, source)?;
    Ok(out)
}

// Writes what is said of the symbols of a file that has a `^` before a misplaced for-expression, or none.
fn write_marked(
    alloc: Global,
    out: &mut String,
    question: Mention,
    file: &str,
) -> Result<(), AllocError> {
    match file.split_once('^') {
        Some((before, after)) => {
            let source = format!(in alloc; "{before}{after}")?;
            let place = Some(before.len());
            write_answer(alloc, out, Mention::State(place), source.as_str())
        }
        None => write_answer(alloc, out, question, file),
    }
}

// Writes the file of a row, and what is said of its symbols.
fn write_row(
    alloc: Global,
    out: &mut String,
    question: Mention,
    row: &str,
) -> Result<(), AllocError> {
    let (file, _) = row.split_once("->").unwrap_or((row, ""));
    write!(out, "{file}->")?;
    write_marked(alloc, out, question, file)?;
    out.push_str("\n")
}

// Writes the files of a table, each with what is said of its symbols. A line `---` divides two rows.
fn write_table(
    alloc: Global,
    out: &mut String,
    question: Mention,
    table: &str,
) -> Result<(), AllocError> {
    for row in table.split("---\n") {
        if !out.is_empty() {
            out.push_str("---\n")?;
        }
        write_row(alloc, out, question, row)?;
    }
    Ok(())
}

/// Fails unless this is found.
pub fn compare(found: &str, wanted: &str) -> Result<(), Fail> {
    if found == wanted {
        return Ok(());
    }
    Err(Fail::new(format_args!("{found}")))
}

/// Fails unless the files of a table have what it says of their symbols.
pub fn check_mentions(alloc: Global, question: Mention, table: &str) -> Result<(), Fail> {
    let mut found = String::new(alloc);
    write_table(alloc, &mut found, question, table)?;
    compare(found.as_str(), table)
}
