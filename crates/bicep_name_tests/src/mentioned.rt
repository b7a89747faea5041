// Circles of symbols, variables that read state, and what is mentioned through variables.

use crate::mentions::{Mention, check_mentions};
use std::test::Fail;

// In each row a file, a line `->`, and the names of symbols that mention each other in a circle.
const CIRCLES: &str = "var a = b
var b = 'x'
var c = '${a}${b}'
->
---
var a = a
-> a
---
var x = 'x'
var c = a
var a = '${x}${b}'
var b = [ c ]
-> c a b
---
param p string = q
param q string = '${p}'
-> p q
---
resource r 'T/x@1' = { name: 'a', q: m.outputs.out }
module m 'm.bicep' = { params: { p: r.id } }
-> r m
---
resource r 'T/x@1' = {
  name: 'a'
  resource c 'y' = {
    name: r.name
  }
}
->
---
resource r 'T/x@1' = {
  name: 'a'
  q: r::c.id
  resource c 'y' = {
    name: 'b'
  }
}
-> r c
---
resource r 'T/x@1' existing = { name: v }
var v = r.type
-> r v
---
resource r 'T/x@1' = if (v) { name: 'a' }
var v = r.id == 'x'
-> r v
---
resource rs 'T/x@1' = [for x in v: { name: x }]
var v = [ rs[0].id ]
-> rs v
---
resource b 'T/x@1' = { name: 'b' }
module m 'm.bicep' = { dependsOn: [ r ] }
resource r 'T/x@1' = { name: m.name }
-> m r
";

// In each row a file, a line `->`, and the variables that have an entry. A `^` is before a misplaced for-expression.
const STATES: &str = "var a = 'x'
var b = '${a}${c}'
param c string
-> a b
---
resource r 'T/x@1' = { name: 'a' }
var a = r.id
var b = r.name
var c = r.type
var d = r.properties.n
var e = r.other
var f = d
var g = [ { h: f } ]
-> a b c
---
resource r 'T/x@1' = { name: m.outputs.out }
module m 'm.bicep' = { name: 'n' }
var a = m.name
var b = m.outputs.out
var c = r.name
var d = r.id
-> a
---
resource r 'T/x@1' = {
  name: m.outputs.out
  resource c 'y' = {
    name: 'b'
  }
}
module m 'm.bicep' = {}
var a = r::c.name
var b = r::c.id
-> a
---
resource r 'T/x@1' = { name: m.outputs.out }
resource c 'T/x/y@1' = { parent: r, name: 'b' }
module m 'm.bicep' = {}
var a = c.name
var b = c.id
-> a
---
module m 'm.bicep' = {}
var l = m.outputs.out
resource rs 'T/x@1' = [for x in l: { name: x }]
resource is 'T/x@1' = [for (x, i) in l: { name: i }]
var a = rs[0].name
var b = is[0].name
var c = is[l].name
-> b
---
var xs = [ 1 ]
var ys = [for x in xs: x]
module m 'm.bicep' = {}
var zs = ^[for x in xs: m.outputs.out]
-> xs ys
---
var xs = [ 1 ]
module m 'm.bicep' = {}
var a = m.outputs.out
var zs = ^[for x in a: 1]
-> xs
";

// In each row a file, a line `->`, and the symbols that mention resources or modules, each with these.
const DEPENDENCIES: &str = "param p string
param q string = p
var a = '${p}'
resource r 'T/x@1' = { name: a }
->
---
var b = '${a}${m.outputs.out}${a}'
var a = r.id
resource r 'T/x@1' = { name: 'r' }
module m 'm.bicep' = {}
resource s 'T/x@1' = { name: b }
-> b: r m; a: r; s: r m;
---
resource r 'T/x@1' = {
  name: 'r'
  resource c 'y' = {
    name: 'c'
  }
}
resource d 'T/x/y@1' = { parent: r, name: 'd' }
resource e 'T/x@1' = { name: 'e', dependsOn: [ d ] }
-> c: r; d: r; e: d;
---
resource r 'T/x@1' = { name: 'r' }
resource e 'T/x@1' existing = { name: r.name }
resource f 'T/x@1' = { name: e.name }
-> e: r; f: e;
---
var l = [ 1 ]
resource rs 'T/x@1' = [for x in l: { name: 'r' }]
module m 'm.bicep' = { params: { p: [for x in [ rs[0].id ]: x] } }
-> m: rs;
";

#[test]
fn circles_begin_with_the_symbol_that_is_declared_first(rt: HostRuntime) -> Result<(), Fail> {
    check_mentions(rt.alloc(), Mention::Circle, CIRCLES)
}

#[test]
fn variables_that_read_state_have_no_entry(rt: HostRuntime) -> Result<(), Fail> {
    check_mentions(rt.alloc(), Mention::State(None), STATES)
}

#[test]
fn resources_and_modules_are_mentioned_through_variables(rt: HostRuntime) -> Result<(), Fail> {
    check_mentions(rt.alloc(), Mention::Dependency, DEPENDENCIES)
}
