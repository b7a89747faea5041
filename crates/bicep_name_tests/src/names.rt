// What names stand for.

use crate::rows::{Question, check, letting_go};
use arm_value::{OutOfMemory, Text};
use bicep_found::Stop;
use bicep_names::{Kind, Outputs, Symbols, resolve_value};
use bicep_parser::File;
use bicep_resolved::SourceValue;
use bicep_tree::{Declaration, Value};
use std::alloc::{AllocError, Global};
use std::test::Fail;

// Each row is the value of an output.
const ROWS: &str = "p
---
v
---
r
---
[ r.id, r.name, r.type, r.apiVersion, r.properties, r.other ]
---
r.name.x
---
rs[0].properties.a
---
r::c.id
---
r::c::d.id
---
m.outputs.out
---
m.name
---
m.nothing
---
m.outputs
---
m.outputs['other']
---
m.?outputs.other
---
ms[1].outputs.out
---
[for x in v: x]
---
[for (x, i) in v: '${x}${i}']
---
[for v in v: v]
---
[for p in p: p.id]
---
[for sys in v: sys]
---
{ a: [for x in v: { b: [for y in x: '${x}${y}'] }] }
---
Length(p)
---
sys.concat(p, az.string(v))
---
resourceGroup().name
---
(m).outputs.out
---
m!.outputs.out
---
[ p.?x, p[?v], p!.x, p.?x[?0]!.y ]
---
^x
---
^P
---
^sys
---
^az
---
'${p}${^x}'
---
[ p, ^x ]
---
{ a: ^x }
---
p.x[^x]
---
p[?^x]
---
^x.?y
---
^x!
---
(^x)
---
rs[^x].id
---
^x[x]
---
p ?? ^x
---
p ? ^x : y
---
!^x
---
m.outputs.^other
---
m.outputs.^Out
---
(m.outputs).^other
---
ms[1].outputs.^other
---
r::^p
---
r::^d
---
rs[0]::^c
---
p::^c
---
[for x in ^x: x]
---
[for x in v: ^y]
---
{ a: [for x in v: x], b: ^x }
---
{ a: [for x in v: { b: [for x in x: x], c: ^i }] }
---
^add(p, v)
---
^sub(p, v)
---
^mul(p, v)
---
^div(p, v)
---
^mod(p, v)
---
^createArray()
---
^createObject()
---
^parameters('p')
---
^variables('v')
---
^copyIndex()
---
^if(p, v, r)
---
^and(p, v)
---
^or(p, v)
---
^not(p)
---
^equals(p, v)
---
^less(p, v)
---
^lessOrEquals(p, v)
---
^greater(p, v)
---
^greaterOrEquals(p, v)
---
^tryGet(p, x)
---
^reference(p)
---
sys.^Reference(p)
---
^true2()
---
^p()
---
sys.^f(x)
---
concat(^f(x))
";

fn add(alloc: Global, symbols: &mut Symbols, name: &str, kind: Kind) -> Result<(), OutOfMemory> {
    let name = Text::of(alloc, name)?;
    if symbols.find(&name).is_none() {
        symbols.add(alloc, &name, kind)?;
    }
    Ok(())
}

// Adds symbols: `p`, `v`, `r` with `c` and `d` nested one in the other, the loop `rs`, and the modules `m` and `ms`.
fn add_all(alloc: Global, symbols: &mut Symbols) -> Result<(), OutOfMemory> {
    add(alloc, symbols, "p", Kind::Parameter)?;
    add(alloc, symbols, "v", Kind::Variable)?;
    add(alloc, symbols, "r", Kind::Resource(None))?;
    add(alloc, symbols, "c", Kind::Resource(Some(2)))?;
    add(alloc, symbols, "d", Kind::Resource(Some(3)))?;
    add(alloc, symbols, "rs", Kind::ResourceLoop(None))?;
    add(alloc, symbols, "m", Kind::Module(1))?;
    add(alloc, symbols, "ms", Kind::ModuleLoop(1))
}

fn add_output(alloc: Global, outputs: &mut Outputs, name: &str) -> Result<(), OutOfMemory> {
    let name = Text::of(alloc, name)?;
    if outputs.find(&name).is_none() {
        outputs.add(alloc, &name)?;
    }
    Ok(())
}

// The outputs of the main file and of the file of the modules.
fn outputs(alloc: Global) -> Result<Vec<Outputs>, OutOfMemory> {
    let mut module = Outputs::new(alloc);
    add_output(alloc, &mut module, "out")?;
    let mut all = Vec::new(alloc);
    all.push(Outputs::new(alloc))?;
    all.push(module)?;
    Ok(all)
}

fn fault_of(found: &Result<SourceValue, Stop>) -> Option<usize> {
    match found {
        Ok(_) => None,
        Err(Stop::Unknown(at)) => Some(*at),
        Err(Stop::OutOfMemory) => Some(0),
    }
}

// The offset of the first unknown name in a value.
fn first_in(alloc: Global, symbols: &Symbols, outputs: &[Outputs], value: &Value) -> Option<usize> {
    let found = resolve_value(alloc, symbols, outputs, &[], value);
    letting_go(fault_of(&found), found)
}

// The offset of the first unknown name in the value of the file's output.
fn first_unknown(
    alloc: Global,
    symbols: &Symbols,
    outputs: &[Outputs],
    file: &File,
) -> Option<usize> {
    match file.first() {
        Some(statement) => match &statement.declaration {
            Declaration::Output(_, _, _, value) => first_in(alloc, symbols, outputs, value),
            _ => Some(0),
        },
        None => Some(0),
    }
}

/// The offset of the first unknown name in the value of the file's output.
pub fn unknown(alloc: Global, file: &File) -> Result<Option<usize>, AllocError> {
    let mut symbols = Symbols::new(alloc);
    add_all(alloc, &mut symbols)?;
    let outputs = outputs(alloc)?;
    Ok(first_unknown(alloc, &symbols, outputs.as_slice(), file))
}

#[test]
fn each_name_means_something_or_is_unknown(rt: HostRuntime) -> Result<(), Fail> {
    check(rt.alloc(), Question::Unknown, ROWS)
}
