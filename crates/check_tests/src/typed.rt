// The answers to whole programs: each refusal with its place, and the files that are deployed.

use crate::faulty::{write_circle, write_placed};
use crate::programs::{Question, check, compare, letting_go, write_answer};
use bicep_files::{Sample, hosts, networks, plain, stored, wholes};
use bicep_program::Program;
use bicep_types::{CheckFault, Checked, check as checked_of};
use std::alloc::{AllocError, Global};
use std::test::Fail;

/// The modules of the programs, by their paths.
pub static MODULES: [(&str, &str); 7] = [
    ("wrong.bicep", "output o int = 'x'\n"),
    (
        "m.bicep",
        "param p int\nparam q string = ''\noutput o string = q\noutput n int = p\n",
    ),
    (
        "modules/network.bicep",
        "param name string
param prefixes array
param tags object
output id string = name
output subnetIds array = prefixes
",
    ),
    (
        "modules/database.bicep",
        "param subnetId string
@secure()
param password string
param tags object
output host string = subnetId
",
    ),
    (
        "modules/app.bicep",
        "param appName string
param slot int
param settings array
param tags object
output host string = appName
",
    ),
    (
        "stamp.bicep",
        "param location string
param isPrimary bool
param count int
param peers array
output appId string = location
output summary object = { location: location }
",
    ),
    (
        "peering.bicep",
        "param from string
param to string
param useRemoteGateways bool
output state string = from
",
    ),
];

fn write_fault(out: &mut String, fault: &CheckFault, mark: usize) -> Result<(), AllocError> {
    match fault {
        CheckFault::UnknownName(file, at) => write_placed(out, "UnknownName", *file, *at, mark),
        CheckFault::NameTwice(file, at) => write_placed(out, "NameTwice", *file, *at, mark),
        CheckFault::WrongType(file, at) => write_placed(out, "WrongType", *file, *at, mark),
        CheckFault::SymbolCycle(_, names) => write_circle(out, names),
        CheckFault::BadDecorator(file, at) => write_placed(out, "BadDecorator", *file, *at, mark),
        CheckFault::BadForPlace(file, at) => write_placed(out, "BadForPlace", *file, *at, mark),
        CheckFault::MissingModuleParameter(file, at) => {
            write_placed(out, "Missing", *file, *at, mark)
        }
        CheckFault::ExtraModuleParameter(file, at) => write_placed(out, "Extra", *file, *at, mark),
        CheckFault::OutOfMemory => out.push_str("OutOfMemory"),
    }
}

fn write_checked(
    out: &mut String,
    checked: &Result<Checked, CheckFault>,
    mark: usize,
) -> Result<(), AllocError> {
    match checked {
        Ok(_) => out.push_str("checked"),
        Err(fault) => write_fault(out, fault, mark),
    }
}

/// Writes the fault of a program, or that it is checked.
pub fn write_typed(
    alloc: Global,
    out: &mut String,
    program: &Program,
    mark: usize,
) -> Result<(), AllocError> {
    let checked = checked_of(alloc, program);
    letting_go(write_checked(out, &checked, mark), checked)
}

const WRONG: &str = "metadata m = ^concat('a')

metadata m = 1
metadata n = ^{
  a: 1 + 1
}

var b = 1 + ^'x'

var b = ^a.x
var a = 1

param p int
var t = '${p}'
output o int = ^t

param p int = ^'x'

module m 'm.bicep' = {
  params: {
    p: ^'x'
  }
}

module m 'm.bicep' = {
  params: {
    p: 1
  }
}
output o string = ^m.outputs.n

resource a 'Demo.Lab/a@1' = if (^1) {
  name: 'a'
}

resource a 'Demo.Lab/a@1' = [for x in ^'ab': {
  name: x
}]

var t = 'x'
var u = t
var v = u
output o int = ^v";

const RIGHT: &str = "metadata m = {
  a: [
    -1
  ]
}

var b = a + 1
var a = 2

var v = [for i in range(0, 3): i]
output o array = v

module m 'm.bicep' = {
  params: {
    p: 1
  }
}
output o string = m.outputs.o
output n int = m.outputs.n

param p object
var a = p.x
output o int = a";

const FIRST: &str = "var a = 1 + 'x'
var ^a = 2

var a = 1 + 'x'
var b = ^c

var a = 1 + 'x'
var b = c
var c = b

var a = 1 + 'x'
^@secure()
param p int

var a = 1 + 'x'
resource r 'Demo.Lab/a@1' = {
  name: 'r'
  ^scope: a
}

var a = 1 + 'x'
module ^m 'm.bicep' = {
}

var a = 1 + 'x'
module m 'm.bicep' = {
  params: {
    p: 1
    ^z: 1
  }
}";

const ALL_WRONG: &str = "WrongType
WrongType
WrongType
WrongType
WrongType
WrongType
WrongType
WrongType
WrongType
WrongType
WrongType
";

const ALL_RIGHT: &str = "checked
checked
checked
checked
checked
";

#[test]
fn a_part_that_does_not_fit_is_refused(rt: HostRuntime) -> Result<(), Fail> {
    check(rt.alloc(), Question::Types, WRONG, ALL_WRONG)
}

#[test]
fn programs_whose_parts_fit_are_checked(rt: HostRuntime) -> Result<(), Fail> {
    check(rt.alloc(), Question::Types, RIGHT, ALL_RIGHT)
}

const BEFORE: &str = "NameTwice
UnknownName
SymbolCycle b c
BadDecorator
BadForPlace
Missing
Extra
";

#[test]
fn other_faults_come_before_types(rt: HostRuntime) -> Result<(), Fail> {
    check(rt.alloc(), Question::Types, FIRST, BEFORE)
}

#[test]
fn modules_are_checked_too(rt: HostRuntime) -> Result<(), Fail> {
    let program = "module m 'wrong.bicep' = {\n}\n";
    check(
        rt.alloc(),
        Question::Types,
        program,
        "WrongType in 1 at 15\n",
    )
}

// Writes a line for each of these files that is refused: its number in the group, and the answer.
fn write_group(
    alloc: Global,
    out: &mut String,
    group: &str,
    files: &[Sample],
) -> Result<(), AllocError> {
    for (number, file) in files.iter().enumerate() {
        let mut answer = String::new(alloc);
        write_answer(alloc, &mut answer, Question::Types, file.0)?;
        if answer.as_str() != "checked" {
            write!(out, "{group} {number}: {answer}\n")?;
        }
    }
    Ok(())
}

fn write_groups(alloc: Global, out: &mut String) -> Result<(), AllocError> {
    write_group(alloc, out, "stored", &stored::SAMPLES)?;
    write_group(alloc, out, "networks", &networks::SAMPLES)?;
    write_group(alloc, out, "hosts", &hosts::SAMPLES)?;
    write_group(alloc, out, "wholes", &wholes::SAMPLES)?;
    write_group(alloc, out, "plain", &plain::SAMPLES)
}

#[test]
fn files_that_are_deployed_are_checked(rt: HostRuntime) -> Result<(), Fail> {
    let mut out = String::new(rt.alloc());
    write_groups(rt.alloc(), &mut out)?;
    compare(out.as_str(), "")
}
