// What may not be where it is.

use crate::rows::{Question, check};
use std::test::Fail;

const RESOURCES: &str = "targetScope = 'resourceGroup'
---
targetScope = ^'subscription'
---
targetScope = ^('resourceGroup')
---
resource a 'T/x@1' = { name: 'a', parent: b, dependsOn: [], location: 'l' }
---
resource a 'T/x/y@1' = { name: 'a', parent: b }
---
resource a ^'x@1' = { name: 'a', parent: b }
---
resource a ^'[T/x]@1' = { name: 'a' }
---
resource a ^'T/x@[1]' = { name: 'a' }
---
resource a 'T/x@[1' = { name: 'a' }
---
resource a 'T/x@1' = if (true) { 'name': 'a' }
---
resource a 'T/x@1' = [for (x, i) in []: if (true) { name: 'a' }]
---
^resource a 'T/x@1' = { size: 1 }
---
^resource a 'T/x@1' = if (true) { size: 1 }
---
^resource a 'T/x@1' = [for x in []: { p: { name: 1 } }]
---
resource a 'T/x@1' = {
  name: 'a'
  ^resource b 'y' = {
    size: 1
  }
}
---
^resource a 'T/x@1' existing = { Name: 'a' }
---
resource a 'T/x@1' existing = { name: 'a' }
---
resource a 'T/x@1' existing = ^if (true) { name: 'a' }
---
resource a 'T/x@1' existing = [for x in []: ^if (true) { name: 'a' }]
---
resource a 'T/x@1' = { name: 'a', ^scope: 1 }
---
resource a 'T/x@1' = { name: 'a', ^Type: 1 }
---
resource a 'T/x@1' = { name: 'a', ^apiversion: 1 }
---
resource a 'T/x@1' = { name: 'a', ^condition: true }
---
resource a 'T/x@1' = { name: 'a', ^Resources: [] }
---
resource a 'T/x@1' = { name: 'a', ^comments: 'b' }
---
resource a 'T/x@1' = { name: 'a', ^'metadata': 1 }
---
resource a 'T/x@1' = { name: 'a', ^subscriptionID: 1 }
---
resource a 'T/x@1' = { name: 'a', ^resourceGroup: 1 }
---
resource a 'T/x@1' = { name: 'a', p: { scope: 1, type: 2, Name: 3, dependson: 4, existing: 5 } }
---
resource a 'T/x@1' = { name: 'a', ^existing: 1 }
---
resource a 'T/x@1' = { name: 'a', ^dependson: [] }
---
resource a 'T/x@1' = { name: 'a', ^Parent: b }
---
resource a 'T/x@1' = { name: 'a', ^NAME: 'b' }
---
resource a 'T/x@1' = { name: 'a', ^copy: 1 }
---
resource a 'T/x@1' = { name: 'a', p: [ { ^Copy: 1 } ] }
---
resource a 'T/x@1' = { name: 'a', p: 1 + { ^'copy': 1 } }
---
resource a 'T/x@1' = [for x in [ { ^copy: 1 } ]: { name: 'a' }]
---
resource a 'T/x@1' = if ({ ^copy: 1 } == {}) { name: 'a' }
---
resource a 'T/x@1' = { name: 'a', ^'[x]': 1 }
---
resource a 'T/x@1' = { name: 'a', p: { ^'[x]': 1 } }
---
resource a 'T/x@1' = { name: 'a', p: { '[x': 1 } }
---
module m 'm.bicep' = { name: 'a', params: { p: 1 }, dependsOn: [] }
---
module m 'm.bicep' = {}
---
module m 'm.bicep' = [for x in []: { 'params': {} }]
---
module m 'm.bicep' = { ^scope: 1 }
---
module m 'm.bicep' = { ^parent: m }
---
module m 'm.bicep' = { ^Name: 'a' }
---
module m 'm.bicep' = { ^dependson: [] }
---
module m 'm.bicep' = if (true) { ^properties: {} }
---
module m 'm.bicep' = { ^Params: {} }
---
module m 'm.bicep' = { params: { ^copy: 1 } }
---
resource a 'T/x@1' = {
  name: 'a'
  resource b 'y' = {
    name: 'b'
    p: [ { q: { ^COPY: 1 } } ]
  }
}
---
resource a 'T/x@1' = {
  name: 'a'
  resource b 'y' = {
    name: 'b'
    resource c 'z' = [for x in []: {
      name: 'c'
    }]
  }
}
---
resource a 'T/x@1' = [for x in []: {
  name: 'a'
  ^resource b 'y' = {
    name: 'b'
  }
}]
---
resource a 'T/x@1' = {
  name: 'a'
  resource b 'y' = {
    name: 'b'
    ^parent: a
  }
}
---
resource a 'T/x@1' = {
  name: 'a'
  p: {
    ^resource b 'y' = {
      name: 'b'
    }
  }
}
---
module m 'm.bicep' = {
  ^resource b 'y' = {
    name: 'b'
  }
}
---
var v = {
  ^resource b 'y' = {
    name: 'b'
  }
}
";

const LOOPS: &str = "var v = [for x in []: x]
---
output o array = [for (x, i) in []: i]
---
resource a 'T/x@1' = { name: 'a', p: { q: [for x in []: x] } }
---
resource a 'T/x@1' = { name: 'a', p: [ { q: { r: [for x in []: x] } } ] }
---
resource a 'T/x@1' = [for y in []: { name: 'a', p: { q: [for x in []: x] } }]
---
resource a 'T/x@1' = [for x in []: { name: 'a' }]
---
module m 'm.bicep' = { params: { p: [for x in []: x], q: [ { r: [for x in []: x] } ] } }
---
module m 'm.bicep' = [for x in []: { params: { p: [for y in []: y] } }]
---
resource a 'T/x@1' = {
  name: 'a'
  resource b 'y' = {
    name: 'b'
    p: { q: [for x in []: x] }
  }
}
---
resource a 'T/x@1' = { name: 'a', p: ^[for x in []: x] }
---
module m 'm.bicep' = { params: ^[for x in []: x] }
---
resource a 'T/x@1' = { name: 'a', p: { q: [for x in []: { r: ^[for z in []: z] }] } }
---
resource a 'T/x@1' = { name: 'a', p: { q: [for x in { r: ^[for z in []: z] }.r: x] } }
---
module m 'm.bicep' = { name: ^[for x in []: x] }
---
resource a 'T/x@1' = { name: 'a', p: ({ q: ^[for x in []: x] }) }
---
resource a 'T/x@1' = { name: 'a', p: null ?? { q: ^[for x in []: x] } }
---
resource a 'T/x@1' = { name: 'a', p: !{ q: ^[for x in []: x] } }
---
resource a 'T/x@1' = { name: 'a', p: { q: ^[for x in []: x] }! }
---
resource a 'T/x@1' = { name: 'a', p: { q: ^[for x in []: x] }['q'] }
---
resource a 'T/x@1' = { name: 'a', p: [][{ q: ^[for x in []: x] }] }
---
resource a 'T/x@1' = { name: 'a', p: true ? { q: ^[for x in []: x] } : {} }
---
resource a 'T/x@1' = { name: 'a', p: union({ q: ^[for x in []: x] }) }
---
resource a 'T/x@1' = { name: 'a', p: { q: ^[for x in []: x] }.q }
---
resource a 'T/x@1' = { name: 'a', p: '${{ q: ^[for x in []: x] }}' }
---
resource a 'T/x@1' = [for y in { q: ^[for x in []: x] }.q: { name: 'a' }]
---
resource a 'T/x@1' = if ({ q: ^[for x in []: x] }.q == []) { name: 'a' }
---
resource a 'T/x@1' = [for y in []: if ({ q: ^[for x in []: x] }.q == []) { name: 'a' }]
---
metadata m = { q: ^[for x in []: x] }
---
@metadata({ q: ^[for x in []: x] })
param p int
---
output o object = { q: ^[for x in []: x] }
---
output o array = [for y in []: { q: ^[for x in []: x] }]
---
var v = [for y in { q: ^[for x in []: x] }.q: y]
---
var v = { q: ^[for x in []: x] }
---
var v = [for y in []: { q: ^[for x in []: x] }]
---
param p object = { q: ^[for x in []: x] }
---
var ^Copy = 1
---
var v = { copy: 1 }
---
output o object = { copy: 1 }
---
var v = { ^'[a]': 1 }
---
output o object = { a: { ^'[a]': 1 } }
---
param p object = { ^'[a]': 1 }
---
metadata m = { ^'[a]': 1 }
---
@metadata({ ^'[]': 1 })
param p int
---
param copy int = 1
";

#[test]
fn resources_and_modules_have_their_own_fields(rt: HostRuntime) -> Result<(), Fail> {
    check(rt.alloc(), Question::Misplaced, RESOURCES)
}

#[test]
fn for_expressions_are_refused_where_they_may_not_be(rt: HostRuntime) -> Result<(), Fail> {
    check(rt.alloc(), Question::Misplaced, LOOPS)
}
