// Which decorators may be where.

use crate::rows::{Question, check};
use std::test::Fail;

const ROWS: &str = "@description('a')
param p string
---
@sys.description('a')
@secure()
@minLength(1)
@maxLength(3)
param p string
---
@secure()
param p object
---
@minLength(0)
@maxLength(3)
@allowed([ 'a', 1, -1, true, false, null, { a: [ 2 ] } ])
@metadata({ a: 1 })
param p array
---
@minValue(-1)
@maxValue(3)
param p int
---
@description('a')
@metadata({})
output o string = 'a'
---
@description('a')
var v = 1
---
@description('''a''')
targetScope = 'resourceGroup'
---
@description('a')
metadata m = 1
---
@description('a')
resource r 'T/x@1' = { name: 'a' }
---
@sys.description('a')
module m 'm.bicep' = {}
---
@batchSize(1)
resource r 'T/x@1' = [for x in []: { name: 'a' }]
---
@description('a')
@batchSize(2)
module m 'm.bicep' = [for (x, i) in []: if (true) { name: 'a' }]
---
resource r 'T/x@1' = {
  name: 'a'
  @description('b')
  @sys.batchSize(1)
  resource c 'y' = [for x in []: {
    name: 'c'
  }]
}
---
resource r 'T/x@1' = {
  name: 'a'
  ^@batchSize(1)
  resource c 'y' = {
    name: 'c'
  }
}
---
^@secure()
param p int
---
^@secure()
param p bool
---
^@secure()
param p array
---
^@secure()
output o string = 'a'
---
^@secure()
var v = 'a'
---
^@secure()
module m 'm.bicep' = {}
---
^@secure(true)
param p string
---
^@SECURE()
param p string
---
@secure()
^@secure()
param p string
---
@secure()
^@sys.secure()
param p string
---
@description('a')
^@description('b')
output o string = 'a'
---
^@minLength(1)
param p int
---
^@minLength(1)
param p object
---
^@maxLength(1)
param p bool
---
^@maxLength('1')
param p string
---
^@minLength()
param p array
---
^@maxLength(1)
output o string = 'a'
---
^@minValue(1)
param p string
---
^@minValue(true)
param p int
---
^@maxValue(1)
var v = 1
---
^@maxValue('1')
param p int
---
^@maxValue()
param p int
---
^@maxValue(1, 2)
param p int
---
^@maxValue(1 + 1)
param p int
---
^@maxValue(-(1))
param p int
---
^@maxValue(--1)
param p int
---
^@allowed('a')
param p string
---
^@allowed([ 'a${1}' ])
param p string
---
^@allowed([ (1) ])
param p int
---
^@allowed([ { a: true ? 1 : 2 } ])
param p object
---
^@allowed([ p ])
param p string
---
^@allowed()
param p string
---
^@allowed([ [] ])
output o array = []
---
^@metadata({})
var v = 1
---
^@metadata({})
resource r 'T/x@1' = { name: 'a' }
---
^@metadata([])
param p int
---
^@metadata({}, {})
param p int
---
^@metadata({ a: [for x in []: 1] })
param p int
---
^@metadata({ a: 1 + 1 })
output o int = 1
---
^@description(1)
param p int
---
^@description()
param p int
---
^@description('a${1}')
param p int
---
^@Description('a')
param p int
---
^@unknown()
param p int
---
^@sys.unknown()
param p int
---
^@batchSize(0)
resource r 'T/x@1' = [for x in []: { name: 'a' }]
---
^@batchSize(-1)
resource r 'T/x@1' = [for x in []: { name: 'a' }]
---
^@batchSize('1')
module m 'm.bicep' = [for x in []: {}]
---
^@batchSize()
module m 'm.bicep' = [for x in []: {}]
---
^@batchSize(1)
resource r 'T/x@1' = { name: 'a' }
---
^@batchSize(1)
resource r 'T/x@1' = if (true) { name: 'a' }
---
^@batchSize(1)
module m 'm.bicep' = {}
---
^@batchSize(1)
var v = [for x in []: x]
---
^@batchSize(1)
param p int
---
resource r 'T/x@1' = {
  name: 'a'
  @description('b')
  resource c 'y' = {
    name: 'c'
    ^@secure()
    resource d 'z' = {
      name: 'd'
    }
  }
}
";

#[test]
fn decorators_are_refused_where_they_may_not_be(rt: HostRuntime) -> Result<(), Fail> {
    check(rt.alloc(), Question::Decorator, ROWS)
}
