// Names in each place of a file, and what may be in `dependsOn`, in `parent` and in a default.

use crate::rows::{Question, check, letting_go};
use arm_value::{OutOfMemory, Text};
use bicep_declared::{DeclaredFile, declare_file};
use bicep_found::Stop;
use bicep_names::Outputs;
use bicep_parser::File;
use bicep_placed::misplaced_link;
use bicep_symbols::{FileNames, NameFault, names_of};
use std::alloc::{AllocError, Global};
use std::test::Fail;

/// What each row goes on from.
pub const FRONT: &str = "var v = []
param p string
resource b 'T/x@1' = {
  name: 'b'
  resource c 'c' = {
    name: 'c'
  }
  resource cs 'c' = [for x in v: {
    name: x
  }]
}
resource bs 'T/x@1' = [for x in v: { name: 'b' }]
module m 'm.bicep' = {}
module ms 'm.bicep' = [for x in v: {}]
";

const UNKNOWN: &str = "param q string = '${p}'
---
param q string = ^x
---
var w = [for (x, i) in v: '${x}${i}']
---
var w = [for x in ^x: x]
---
output o string = ^i
---
output o array = [for (x, i) in v: { a: i, b: ^y }]
---
resource d 'T/x@1' = [for (x, i) in v: if (x.y == i) { name: x, q: { r: [for y in x: { z: [ x, y, i ] }] } }]
---
resource d 'T/x@1' = [for (x, i) in ^i: { name: x }]
---
resource d 'T/x@1' = [for x in v: if (^i) { name: x }]
---
resource d 'T/x@1' = if (^i) { name: p }
---
resource d 'T/x@1' = { name: p, dependsOn: [ b, ^x ] }
---
resource d 'T/x/y@1' = { name: p, parent: ^x }
---
resource d 'T/x@1' = { name: ^x }
---
resource d 'T/x@1' = {
  name: d::e.name
  resource e 'y' = {
    name: ^x
  }
}
---
resource d 'T/x@1' = {
  name: d::^c.name
}
---
module n 'm.bicep' = { params: { p: m.outputs.out, q: ^x } }
---
module n 'm.bicep' = [for x in v: { name: ^n2 }]
---
metadata a = x
";

const LINKS: &str = "param q string = concat(p, resourceGroup().name)
---
param q array = ^v
---
param q string = '${^b.name}'
---
param q array = [ 1, { a: -(^v) } ]
---
param q string = ^b.properties.x
---
param q string = ^b::c.id
---
param q string = ^m.name
---
param q string = ^ms[0].outputs.out
---
param q string = p ?? concat(^m.outputs.out)
---
param q object = p == 'a' ? {} : { a: p.x[^bs[0].id] }
---
resource d 'T/x@1' = { name: 'a', dependsOn: [ b, (bs), bs[0], m, ms, ms[p], b::c ] }
---
resource d 'T/x@1' = { name: 'a', dependsOn: [ b::cs, b::cs[0] ] }
---
resource d 'T/x@1' = { name: 'a', dependsOn: [] }
---
module n 'm.bicep' = { dependsOn: [ b, ms[0] ] }
---
resource d 'T/x@1' = [for x in v: { name: 'a', dependsOn: [ bs[x] ] }]
---
resource d 'T/x@1' = { name: 'a', dependsOn: ^b }
---
resource d 'T/x@1' = { name: 'a', dependsOn: ^p == 'a' ? [] : [] }
---
resource d 'T/x@1' = { name: 'a', dependsOn: ^v }
---
resource d 'T/x@1' = { name: 'a', dependsOn: ^[for x in v: x] }
---
resource d 'T/x@1' = { name: 'a', dependsOn: [ ^'b' ] }
---
resource d 'T/x@1' = { name: 'a', dependsOn: [ b, ^null ] }
---
resource d 'T/x@1' = { name: 'a', dependsOn: [ ^[ b ] ] }
---
resource d 'T/x@1' = { name: 'a', dependsOn: [ ^m.outputs.out ] }
---
resource d 'T/x@1' = { name: 'a', dependsOn: [ ^p == 'a' ? b : bs ] }
---
resource d 'T/x@1' = { name: 'a', dependsOn: [ ^b.id ] }
---
resource d 'T/x@1' = { name: 'a', dependsOn: [ ^b[0] ] }
---
resource d 'T/x@1' = { name: 'a', dependsOn: [ ^m[0] ] }
---
resource d 'T/x@1' = { name: 'a', dependsOn: [ ^v ] }
---
module n 'm.bicep' = { dependsOn: [ m, ^1 ] }
---
resource d 'T/x@1' = {
  name: 'a'
  resource e 'y' = {
    name: 'e'
    dependsOn: [ ^p ]
  }
}
---
resource d 'T/x@1' = { name: { a: [ p ] }, p: { q: [for x in v: x] } }
---
resource d 'T/x@1' = { name: { a: ^[for x in v: x] } }
---
module n 'm.bicep' = { name: [ p, { a: { b: ^[for x in v: x] } } ] }
---
resource d 'T/x/y@2' = { name: 'a', parent: b }
---
resource d 't/X/y@1' = { name: 'a', parent: (b) }
---
resource d 'T/x/y@1' = { name: 'a', parent: bs[0] }
---
resource d 'T/x/c/y@1' = { name: 'a', parent: b::c }
---
resource d 'T/x/c/y@1' existing = { name: 'a', parent: b::cs[0] }
---
resource d ^'T/x/c/y@1' = { name: 'a', parent: b }
---
resource d ^'T/x/y@1' = { name: 'a', parent: b::c }
---
resource d ^'T/z/y@1' = { name: 'a', parent: b }
---
resource d ^'T/x@1' = { name: 'a', parent: b }
---
resource d ^'T/xy/y@1' = { name: 'a', parent: b }
---
resource d ^'T/x/y/z@1' = { name: 'a', parent: b }
---
resource d ^'T/z/y@1' = { name: 'a', parent: bs[0] }
---
resource d ^'T/z/y@1' existing = { name: 'a', parent: b }
---
resource d 'T/x/y@1' = { name: 'a', parent: ^bs }
---
resource d 'T/x/y@1' = { name: 'a', parent: ^b[0] }
---
resource d 'T/x/y@1' = { name: 'a', parent: ^m }
---
resource d 'T/x/y@1' = { name: 'a', parent: ^ms[0] }
---
resource d 'T/x/y@1' = { name: 'a', parent: ^b.id }
---
resource d 'T/x/c/y@1' = { name: 'a', parent: ^b::cs }
---
resource d 'T/x/y@1' = { name: 'a', parent: ^'b' }
---
resource d 'T/x/y@1' = { name: 'a', parent: ^p }
---
resource d 'T/x/y@1' = { name: 'a', parent: ^[ b ] }
---
resource d 'T/x/y@1' = { name: 'a', parent: ^[for x in v: b] }
---
resource d 'T/x/y@1' = { name: 'a', parent: ^p == 'a' ? b : b }
---
resource d 'T/x/y@1' = [for x in v: { name: 'a', parent: bs[x] }]
";

fn add_output(alloc: Global, outputs: &mut Outputs, name: &str) -> Result<(), OutOfMemory> {
    let name = Text::of(alloc, name)?;
    if outputs.find(&name).is_none() {
        outputs.add(alloc, &name)?;
    }
    Ok(())
}

/// No outputs of the main file, and one of the module's.
pub fn outputs(alloc: Global) -> Result<Vec<Outputs>, OutOfMemory> {
    let mut module = Outputs::new(alloc);
    add_output(alloc, &mut module, "out")?;
    let mut all = Vec::new(alloc);
    all.push(Outputs::new(alloc))?;
    all.push(module)?;
    Ok(all)
}

// The offset of the first unknown name, or of the first thing that is misplaced by what names stand for.
fn asked(
    alloc: Global,
    question: Question,
    names: &FileNames,
    declared: &Result<DeclaredFile, Stop>,
) -> Result<Option<usize>, AllocError> {
    match declared {
        Ok(declared) => match question {
            Question::Link => misplaced_link(
                alloc,
                names.entries.as_slice(),
                declared.declarations.as_slice(),
            ),
            _ => Ok(None),
        },
        Err(Stop::Unknown(at)) => Ok(Some(*at)),
        Err(Stop::OutOfMemory) => Err(AllocError),
    }
}

// What is answered of a file; an offset beyond it where a name is given twice.
fn asked_of(
    alloc: Global,
    question: Question,
    names: &Result<FileNames, NameFault>,
    file: &File,
) -> Result<Option<usize>, AllocError> {
    let Ok(names) = names else {
        return Ok(Some(usize::MAX));
    };
    let outputs = outputs(alloc)?;
    let declared = declare_file(alloc, &names.symbols, outputs.as_slice(), file.as_slice());
    letting_go(
        asked(alloc, question, names, &declared),
        (declared, outputs),
    )
}

/// What is answered of a file with its declarations.
pub fn declared_in(
    alloc: Global,
    question: Question,
    file: &File,
) -> Result<Option<usize>, AllocError> {
    let names = names_of(alloc, &[1, 1, 1], file.as_slice());
    letting_go(asked_of(alloc, question, &names, file), names)
}

#[test]
fn each_name_of_a_file_means_something_or_is_unknown(rt: HostRuntime) -> Result<(), Fail> {
    check(rt.alloc(), Question::Declared, UNKNOWN)
}

#[test]
fn defaults_dependencies_and_parents_are_of_their_kinds(rt: HostRuntime) -> Result<(), Fail> {
    check(rt.alloc(), Question::Link, LINKS)
}
