// How the program is run on the rows of a table.

ghost use Rattle.deploy_cli.specs.Clauses as spec;

use crate::checks::{compare, letting_go};
use crate::first_path::{apart, no_disk, said};
use arm_edges::{MemFile, MemLink, MemSink, MemTree};
use arm_value::Bytes;
use deploy_cli::run;
use provider_trait::Catalog;
use std::alloc::{AllocError, Global};
use std::sync::Wait;
use std::test::Fail;
use std::thread::Threads;
use worker_crew::Seat;

const GROUP: &str =
    "/subscriptions/00000000-0000-0000-0000-000000000000/resourceGroups/g/providers/";

/// The file of that name.
pub fn file_of(alloc: Global, name: &str, bytes: &[u8]) -> Result<MemFile, AllocError> {
    Ok(MemFile {
        name: String::from_str(alloc, name)?,
        bytes: Bytes::from_vec(Vec::from_slice(alloc, bytes)?),
    })
}

// The name and the text of a part of the files: the main file comes first, and has no line for its name.
fn named(part: &str, is_main: bool) -> (&str, &str) {
    if is_main {
        return ("main.bicep", part);
    }
    part.split_once('\n').unwrap_or((part, ""))
}

// The files of a text, of which the main file comes first. Each other file comes after a line as `--- m.bicep`. The
// calls of those numbers fail.
fn folder(alloc: Global, text: &str, fails: &[u64]) -> Result<MemTree, AllocError> {
    let mut files = Vec::new(alloc);
    for part in text.split("\n--- ") {
        let (name, text) = named(part, files.is_empty());
        files.push(file_of(alloc, name, text.as_bytes())?)?;
    }
    Ok(MemTree::new(alloc, files, fails.to_vec(alloc)?))
}

// Four seats over the catalogue.
#[tactic(auto, using(worker_crew::proofs::SeatLemmas::fresh))]
fn crew_of(alloc: Global) -> Result<Vec<Seat<Catalog>>, AllocError>
    ensures { spec.IfOk result spec.AreFree }
{
    let mut crew = Vec::new(alloc);
    for _seat in 0..4 {
        crew.push(Seat::new(Catalog::new(alloc)))?;
    }
    Ok(crew)
}

// The status of these words over that tree and those seats, with an output that takes what is printed.
fn status_over<R: Threads + Wait + Sync>(
    rt: &R,
    alloc: Global,
    words: &[String],
    tree: &mut MemTree,
    crew: &mut Vec<Seat<Catalog>>,
    out: &mut MemSink,
) -> Result<u8, Fail>
    requires { spec.AreFree crew.old }
{
    if crew.is_empty() || crew.len() > 1000 {
        return Err(Fail::from("too few or too many seats"));
    }
    let mut disk = no_disk(alloc)?;
    let mut link = MemLink::new(alloc, Vec::new(alloc), Vec::new(alloc));
    let ran = run(rt, alloc, words, tree, &mut disk, crew, &mut link, out);
    letting_go(Ok(ran.status), (ran, disk, link))
}

fn status_of<R: Threads + Wait + Sync>(
    rt: &R,
    alloc: Global,
    words: &[String],
    tree: &mut MemTree,
    out: &mut MemSink,
) -> Result<u8, Fail> {
    let mut crew = crew_of(alloc)?;
    let status = status_over(rt, alloc, words, tree, &mut crew, out);
    letting_go(status, crew)
}

// The status of these words over that tree, and what is printed.
fn printed<R: Threads + Wait + Sync>(
    rt: &R,
    alloc: Global,
    words: &str,
    tree: &mut MemTree,
    out: &mut MemSink,
) -> Result<String, Fail> {
    let words = apart(alloc, words)?;
    let status = status_of(rt, alloc, &words, tree, out);
    letting_go(said(alloc, status, out.as_slice()), words)
}

fn sink_of(alloc: Global, fails: &[u64]) -> Result<MemSink, AllocError> {
    MemSink::new(alloc, [7].to_vec(alloc)?, fails.to_vec(alloc)?, 100_000)
}

// What fails: calls of the tree, and calls of the output, by their numbers.
#[derive(Clone, Copy)]
pub struct Failing<'a> {
    pub tree: &'a [u64],
    pub out: &'a [u64],
}

/// No call fails.
pub const NONE: Failing<'static> = Failing {
    tree: &[],
    out: &[],
};

// The status of these words over that tree, and what is printed. The calls of the output of those numbers fail.
fn ran_over<R: Threads + Wait + Sync>(
    rt: &R,
    alloc: Global,
    words: &str,
    tree: &mut MemTree,
    fails: &[u64],
) -> Result<String, Fail> {
    let mut out = sink_of(alloc, fails)?;
    let printed = printed(rt, alloc, words, tree, &mut out);
    letting_go(printed, out)
}

// The status of these words over these files, and what is printed.
fn ran<R: Threads + Wait + Sync>(
    rt: &R,
    alloc: Global,
    words: &str,
    files: &str,
    failing: Failing,
) -> Result<String, Fail> {
    let mut tree = folder(alloc, files, failing.tree)?;
    let found = ran_over(rt, alloc, words, &mut tree, failing.out);
    letting_go(found, tree)
}

// Adds a character of what is wanted, or what it is in the place of.
fn add_sign(text: &mut String, c: char) -> Result<(), AllocError> {
    match c {
        '§' => text.push_str(GROUP),
        _ => text.push(c),
    }
}

// What is wanted, with its signs replaced, and without the ends of lines that go on in the next.
fn filled(alloc: Global, wanted: &str) -> Result<String, AllocError> {
    let mut text = String::new(alloc);
    for part in wanted.split("\\\n") {
        add_signs(&mut text, part)?;
    }
    Ok(text)
}

fn add_signs(text: &mut String, part: &str) -> Result<(), AllocError> {
    for c in part.chars() {
        add_sign(text, c)?;
    }
    Ok(())
}

/// Compares what is printed of these words over these files with what is wanted, with the status before it. A `§` is in
/// the place of the beginning of the ids of the group `g`, and a line that ends with `\` goes on in the next.
pub fn check_run<R: Threads + Wait + Sync>(
    rt: &R,
    alloc: Global,
    (words, files, wanted): (&str, &str, &str),
    failing: Failing,
) -> Result<(), Fail> {
    let wanted = filled(alloc, wanted)?;
    let found = ran(rt, alloc, words, files, failing)?;
    compare(words, found.as_str().trim_end(), wanted.as_str().trim_end())
}

fn check_row<R: Threads + Wait + Sync>(rt: &R, alloc: Global, row: &str) -> Result<(), Fail> {
    let (asked, wanted) = row.split_once("=> ").unwrap_or((row, ""));
    let (words, files) = asked.split_once('\n').unwrap_or((asked, ""));
    check_run(rt, alloc, (words, files, wanted), NONE)
}

/// Runs each row of a table. An empty line divides two rows.
pub fn check_rows<R: Threads + Wait + Sync>(rt: &R, alloc: Global, rows: &str) -> Result<(), Fail> {
    for row in rows.split("\n\n") {
        check_row(rt, alloc, row)?;
    }
    Ok(())
}

// A tree whose file `main.bicep` has these bytes.
fn tree_of(alloc: Global, bytes: &[u8]) -> Result<MemTree, AllocError> {
    let mut files = Vec::new(alloc);
    files.push(file_of(alloc, "main.bicep", bytes)?)?;
    Ok(MemTree::new(alloc, files, Vec::new(alloc)))
}

fn compare_found(found: Result<String, Fail>, wanted: &str) -> Result<(), Fail> {
    compare("the bytes", found?.as_str().trim_end(), wanted)
}

/// Compares what is printed of the deployment of a main file of these bytes with what is wanted.
pub fn check_bytes<R: Threads + Wait + Sync>(
    rt: &R,
    alloc: Global,
    bytes: &[u8],
    wanted: &str,
) -> Result<(), Fail> {
    let mut tree = tree_of(alloc, bytes)?;
    let words = "deploy main.bicep --group g --name d";
    let found = ran_over(rt, alloc, words, &mut tree, &[]);
    compare_found(letting_go(found, tree), wanted)
}
