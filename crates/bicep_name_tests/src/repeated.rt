// Names that are given twice.

use crate::rows::{Question, check};
use std::test::Fail;

const SYMBOLS: &str = "param p int
var q = 1
---
param p int
var ^p = 1
---
param p int
resource ^P 'T/x@1' = { name: 'a' }
---
resource p 'T/x@1' = [for x in []: { name: 'a' }]
module ^p 'm.bicep' = {}
---
module m 'm.bicep' = {}
var n = 1
module ^M 'm.bicep' = [for x in []: {}]
---
param ^sys int
---
var ^Az = 1
---
param p int = 1
param ^p string
---
output o int = 1
output ^O int = 2
---
param o int
output o int = o
---
output sys int = 1
---
resource ^SYS 'T/x@1' = { name: 'a' }
---
module ^az 'm.bicep' = {}
---
resource r 'T/x@1' = {
  name: 'a'
  resource ^sys 'y' = {
    name: 'b'
  }
}
---
metadata a = 1
metadata a = 2
var a = 1
---
resource r 'T/x@1' = {
  name: 'a'
  resource c 'y' = {
    name: 'b'
  }
}
var ^c = 1
---
resource r 'T/x@1' = {
  name: 'a'
  resource c 'y' = {
    name: 'b'
    resource ^R 'z' = {
      name: 'c'
    }
  }
}
---
resource r 'T/x@1' = {
  name: 'a'
  resource c 'y' = {
    name: 'b'
  }
  resource ^C 'y' = {
    name: 'b'
  }
}
";

const PARTS: &str = "var v = { a: 1, A: 2, b: { a: 3 } }
---
var v = { a: 1, ^a: 2 }
---
var v = { a: 1, ^'a': 2 }
---
var v = { 'a': 1, b: 2, ^a: 3 }
---
var v = { a: 1, 'A': 2 }
---
var v = [ { a: 1, ^a: 1 } ]
---
var v = '${{ a: 1, ^a: 2 }}'
---
var v = concat({ a: 1, ^a: 1 })
---
var v = ({ a: 1, ^a: 1 }).a
---
var v = { a: { b: 1, ^b: 2 } }[0]
---
var v = true ? {} : { a: 1, ^a: 2 }
---
var v = x ?? !{ a: 1, ^a: 2 }
---
metadata m = { a: 1, ^a: 1 }
---
@metadata({ a: 1, ^a: 1 })
param p int
---
param p object = { a: 1, ^a: 1 }
---
output o object = { a: 1, ^a: 1 }
---
resource r 'T/x@1' = { name: 'a', Name: 'b' }
---
resource r 'T/x@1' = { name: 'a', ^name: 'b' }
---
resource r 'T/x@1' = if ({ a: 1, ^a: 1 }.a == 1) { name: 'a' }
---
resource r 'T/x@1' = [for x in [{ a: 1, ^a: 1 }]: { name: 'a' }]
---
resource r 'T/x@1' = [for x in []: if (true) { name: 'a', ^'name': 'b' }]
---
resource r 'T/x@1' = {
  name: 'a'
  @metadata({ a: 1, ^a: 1 })
  resource c 'y' = {
    name: 'b'
  }
}
---
resource r 'T/x@1' = {
  name: 'a'
  resource c 'y' = {
    name: 'b'
    p: { a: 1, ^a: 1 }
  }
}
---
module m 'm.bicep' = { params: { p: 1, q: 2 } }
---
module m 'm.bicep' = { params: { p: 1, ^P: 2 } }
---
module m 'm.bicep' = [for x in []: { 'params': { p: 1, ^P: 2 } }]
---
module m 'm.bicep' = { params: ({ p: 1, q: 2 }) }
---
module m 'm.bicep' = { params: ({ p: 1, ^P: 2 }) }
---
module m 'm.bicep' = [for x in []: if (true) { params: (({ p: 1, q: 2, ^Q: 3 })) }]
---
module m 'm.bicep' = { params: {}, ^params: {} }
---
module m 'm.bicep' = { params: { p: { a: 1, A: 2 } } }
---
module m 'm.bicep' = { Params: { p: 1, P: 2 } }
---
resource r 'T/x@1' = { name: 'a', params: { p: 1, P: 2 } }
---
var v = [for (x, i) in []: x]
---
var v = [for (x, ^X) in []: x]
---
output o array = [for (x, ^x) in []: x]
---
resource r 'T/x@1' = [for (x, ^x) in []: { name: 'a' }]
---
module m 'm.bicep' = [for (x, ^x) in []: if (true) {}]
---
resource r 'T/x@1' = { name: 'a', p: { q: [for (x, ^x) in []: x] } }
---
var v = [for v in []: v]
---
var v = [for (sys, az) in []: sys]
";

#[test]
fn symbols_and_outputs_are_given_once(rt: HostRuntime) -> Result<(), Fail> {
    check(rt.alloc(), Question::Repeated, SYMBOLS)
}

#[test]
fn names_in_objects_and_loops_are_given_once(rt: HostRuntime) -> Result<(), Fail> {
    check(rt.alloc(), Question::Repeated, PARTS)
}
