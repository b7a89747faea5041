// Programs without a fault, and programs with several.

use crate::programs::{Question, check};
use std::test::Fail;

const WITHOUT: &str = "param p string
var v = '${p}x'
resource a 'Demo.Lab/a@1' = {
  name: v
  resource b 'b' = {
    name: 'b'
  }
}
module m 'm.bicep' = {
  params: {
    p: a::b.id
  }
}
output o string = m.outputs.o";

// In each of these the fault of the first kind is not the first in the file.
const SEVERAL: &str = "targetScope = 'x'
var a = b
var ^a = 1

targetScope = 'x'
var a = a
var b = ^c

@secure()
param p int
var a = a";

const LATER: &str = "targetScope = 'x'
^@secure()
param p int

module m 'm.bicep' = {
}
targetScope = ^'x'";

#[test]
fn a_program_without_a_fault_is_resolved(rt: HostRuntime) -> Result<(), Fail> {
    let wanted = "5 1;2 1;\n";
    check(rt.alloc(), Question::Faults, WITHOUT, wanted)
}

#[test]
fn of_several_faults_the_first_kind_is_returned(rt: HostRuntime) -> Result<(), Fail> {
    let wanted = "NameTwice\nUnknownName\nSymbolCycle a\n";
    check(rt.alloc(), Question::Faults, SEVERAL, wanted)
}

#[test]
fn a_decorator_is_before_a_place_and_an_argument(rt: HostRuntime) -> Result<(), Fail> {
    let wanted = "BadDecorator\nBadForPlace\n";
    check(rt.alloc(), Question::Faults, LATER, wanted)
}
