// Each fault, with its place.

use crate::programs::{Question, check};
use std::test::Fail;

// Programs of one fault each, with empty lines between them.
const UNKNOWN: &str = "var a = ^b

output o int = 1 + ^x

module m 'm.bicep' = {
  params: {
    p: ''
  }
}
output o string = m.outputs.^no

param p array = []
var v = [for x in p: ^y]

resource a 'Demo.Lab/a@1' = {
  name: 'a'
  n: ^f(1)
}";

const TWICE: &str = "param a int
var ^A = 1

var ^sys = 1

output o int = 1
output ^O int = 2

var v = {
  a: 1
  ^a: 2
}

resource a 'Demo.Lab/a@1' = {
  name: 'a'
  resource ^A 'b' = {
    name: 'b'
  }
}";

const DECORATORS: &str = "^@secure()
param p int

@description('a')
^@description('b')
var v = 1

^@batchSize(2)
module m 'm.bicep' = {
  params: {
    p: ''
  }
}";

const PLACES: &str = "targetScope = ^'subscription'

resource a ^'Demo.Lab@1' = {
  name: 'a'
}

var v = 'x'
param p string = ^v

resource a 'Demo.Lab/a@1' = {
  name: 'a'
}
resource b 'Demo.Lab/b@1' = {
  name: 'b'
  dependsOn: [
    ^a.id
  ]
}

resource a 'Demo.Lab/a@1' = {
  name: 'a'
}
resource b ^'Demo.Lab/b/c@1' = {
  name: 'b'
  parent: a
}";

const ARGUMENTS: &str = "module ^m 'm.bicep' = {
}

module ^m 'm.bicep' = {
  params: {
    q: ''
  }
}

module m 'm.bicep' = {
  params: {
    P: ''
    ^r: 1
  }
}

module m 'm.bicep' = {
  params: ({
    p: ''
    ^r: 1
  })
}";

const CIRCLES: &str = "var a = b
var b = a

var v = v

module a 'm.bicep' = {
  params: {
    p: b.outputs.o
  }
}
module b 'm.bicep' = {
  params: {
    p: a.outputs.o
  }
}";

#[test]
fn a_name_that_means_nothing(rt: HostRuntime) -> Result<(), Fail> {
    let wanted = "UnknownName\nUnknownName\nUnknownName\nUnknownName\nUnknownName\n";
    check(rt.alloc(), Question::Faults, UNKNOWN, wanted)
}

#[test]
fn a_name_that_is_given_twice(rt: HostRuntime) -> Result<(), Fail> {
    let wanted = "NameTwice\nNameTwice\nNameTwice\nNameTwice\nNameTwice\n";
    check(rt.alloc(), Question::Faults, TWICE, wanted)
}

#[test]
fn a_bad_decorator(rt: HostRuntime) -> Result<(), Fail> {
    let wanted = "BadDecorator\nBadDecorator\nBadDecorator\n";
    check(rt.alloc(), Question::Faults, DECORATORS, wanted)
}

#[test]
fn what_may_not_be_where_it_is(rt: HostRuntime) -> Result<(), Fail> {
    let wanted = "BadForPlace\nBadForPlace\nBadForPlace\nBadForPlace\nBadForPlace\n";
    check(rt.alloc(), Question::Faults, PLACES, wanted)
}

#[test]
fn arguments_that_do_not_fit(rt: HostRuntime) -> Result<(), Fail> {
    let wanted =
        "MissingModuleParameter\nMissingModuleParameter\nExtraModuleParameter\nExtraModuleParameter\n";
    check(rt.alloc(), Question::Faults, ARGUMENTS, wanted)
}

#[test]
fn circles_have_the_names_of_their_symbols(rt: HostRuntime) -> Result<(), Fail> {
    let wanted = "SymbolCycle a b\nSymbolCycle v\nSymbolCycle a b\n";
    check(rt.alloc(), Question::Faults, CIRCLES, wanted)
}
