// What the places of declarations take.

use crate::rows::{Question, check_lines, letting_go, parsed};
use crate::typing::{names, outputs, symbols};
use arm_value::{OutOfMemory, Text};
use bicep_declared::{DeclaredFile, declare_file};
use bicep_parser::File;
use bicep_program::SourceFile;
use bicep_symbols::{Entry, FileNames, NameFault, names_of};
use bicep_type_faults::file_fits;
use std::alloc::{AllocError, Global};
use std::test::Fail;

// The parameters of the module, whose outputs are those of `typing`.
const MODULE: &str = "param text string
param list array = []
";

const PLACES: &str = "param q string
param q string = 'a'
param q string = ^1
param q bool = ^[]
param q object = json('{}')
var x = 1 + i
var x = 1 + ^t
output x int = i
output x int = v
output x int = ^t
output x array = [for y in a: y]
output x object = ^[for y in a: y]
output x array = [for y in a: -^t]
resource d 'T/x@1' = { name: i }
resource d 'T/x@1' = { name: ^rs }
resource d 'T/x@1' = if (b) { name: 'd' }
resource d 'T/x@1' = if (v) { name: 'd' }
resource d 'T/x@1' = if (^i) { name: 'd' }
resource d 'T/x@1' = [for y in ^o: { name: 'd' }]
resource d 'T/x@1' = [for y in a: if (^1) { name: 'd' }]
resource d 'T/x@1' = [for (y, n) in a: if (n < 2) { name: 'd${n}' }]
resource d 'T/x@1' = { name: 'd', p: { q: [ 1, ^m ] } }
resource d 'T/x/y@1' = { name: 'd', parent: r }
resource d 'T/x/y@1' = { name: 'd', parent: rs[0] }
resource d 'T/x/y@1' = { name: 'd', parent: rs[^t] }
resource d 'T/x/y@1' = { name: 'd', parent: -^t }
resource d 'T/x@1' = { name: 'd', dependsOn: [ r, rs, rs[i], ms, m, r::c ] }
resource d 'T/x@1' = { name: 'd', dependsOn: [ rs[^b] ] }
resource d 'T/x@1' = { name: 'd', Parent: ^r }
module n 'm.bicep' = { params: { text: 'a' } }
module n 'm.bicep' = { params: { TEXT: v, list: [for y in a: y] } }
module n 'm.bicep' = { params: { text: ^1 } }
module n 'm.bicep' = { params: { text: 'a', list: ^o } }
module n 'm.bicep' = { params: { text: ^[for y in a: y] } }
module n 'm.bicep' = { params: ^[] }
module n 'm.bicep' = { params: ^[for y in a: y] }
module n 'm.bicep' = { params: ^o }
module n 'm.bicep' = { name: 1, dependsOn: [ m ], params: { other: r.id, text: t } }
module n 'm.bicep' = { params: { other: ^r } }
module n 'm.bicep' = if (^t) { params: { text: t } }
module n 'm.bicep' = [for y in a: { params: { text: y } }]
";

// The number of the module's file is 1.
const MODULES: [u32; 3] = [1, 1, 1];

fn push_file(
    alloc: Global,
    all: &mut Vec<SourceFile>,
    name: &str,
    source: &str,
) -> Result<(), OutOfMemory> {
    let name = Text::of(alloc, name)?;
    let Some(file) = parsed(alloc, source) else {
        return Ok(());
    };
    let modules = Vec::new(alloc);
    match all.push(SourceFile {
        name,
        file,
        modules,
    }) {
        Ok(()) => Ok(()),
        Err(_) => Err(AllocError),
    }
}

// Both files of the program, the main file without any declaration.
fn files(alloc: Global) -> Result<Vec<SourceFile>, OutOfMemory> {
    let mut all = Vec::new(alloc);
    push_file(alloc, &mut all, "main.bicep", "")?;
    push_file(alloc, &mut all, "m.bicep", MODULE)?;
    Ok(all)
}

// The offset of the first part of the file that does not fit.
fn fault_among(
    alloc: Global,
    files: &[SourceFile],
    entries: &[Entry],
    declared: &DeclaredFile,
) -> Result<Option<usize>, OutOfMemory> {
    let symbols = symbols(alloc, declared.declarations.as_slice())?;
    let outputs = outputs(alloc)?;
    match file_fits(files, &symbols, &outputs, entries, declared) {
        Ok(()) => Ok(None),
        Err(at) => Ok(Some(at)),
    }
}

fn misfit_in<E>(
    alloc: Global,
    entries: &[Entry],
    declared: &Result<DeclaredFile, E>,
) -> Result<Option<usize>, OutOfMemory> {
    let Ok(declared) = declared else {
        return Ok(Some(usize::MAX));
    };
    let files = files(alloc)?;
    letting_go(
        fault_among(alloc, files.as_slice(), entries, declared),
        files,
    )
}

fn misfit_of(
    alloc: Global,
    found: &Result<FileNames, NameFault>,
    file: &File,
) -> Result<Option<usize>, OutOfMemory> {
    let Ok(found) = found else {
        return Ok(Some(usize::MAX));
    };
    let names = names(alloc)?;
    let declared = declare_file(alloc, &found.symbols, names.as_slice(), file.as_slice());
    letting_go(
        misfit_in(alloc, found.entries.as_slice(), &declared),
        declared,
    )
}

/// The offset of the first part of the file that does not fit; one beyond it where a name is given twice or is unknown.
pub fn first_misfit(alloc: Global, file: &File) -> Result<Option<usize>, OutOfMemory> {
    let found = names_of(alloc, &MODULES, file.as_slice());
    letting_go(misfit_of(alloc, &found, file), found)
}

#[test]
fn places_of_declarations_take_their_kinds(rt: HostRuntime) -> Result<(), Fail> {
    check_lines(rt.alloc(), Question::Fits, PLACES)
}
