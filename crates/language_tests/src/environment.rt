// What the expressions of the tests can look at.

use arm_env::env::{Env, Looping, ModuleAt, Named, OutputAt, Seen, Slot, Spelled, StateAt};
use arm_ids::{Key, Place};
use arm_value::{OutOfMemory, Text, Value};
use std::alloc::{AllocError, Global};
use std::test::Fail;

/// The group of this name, with its subscription.
pub fn place(alloc: Global, group: &str) -> Result<Place, OutOfMemory> {
    Ok(Place {
        subscription: Text::of(alloc, "S1")?,
        group: Text::of(alloc, group)?,
        location: Text::of(alloc, "westeurope")?,
        deployment: Text::of(alloc, "first")?,
    })
}

// What is known of an entry: `absent`, `late`, or its value as JSON.
fn slot(alloc: Global, known: &str) -> Result<Slot, Fail> {
    if known == "absent" {
        return Ok(Slot::Absent);
    }
    if known == "late" {
        return Ok(Slot::Late);
    }
    Ok(Slot::Known(Value::from_json(alloc, known.as_bytes())?))
}

/// Adds the item last.
pub fn push<T: Drop>(list: &mut Vec<T>, item: T) -> Result<(), AllocError> {
    match list.push(item) {
        Ok(()) => Ok(()),
        Err(_) => Err(AllocError),
    }
}

fn named(alloc: Global, line: &str) -> Result<Named, Fail> {
    let (name, known) = line.split_once(" = ").unwrap_or((line, "absent"));
    let name = Text::of(alloc, name)?;
    let slot = slot(alloc, known)?;
    Ok(Named { name, slot })
}

// Adds the parameter or variable of each line.
fn add_named(alloc: Global, list: &mut Vec<Named>, table: &str) -> Result<(), Fail> {
    for line in table.lines() {
        push(list, named(alloc, line)?)?;
    }
    Ok(())
}

/// Adds a loop of this name.
pub fn add_loop(
    alloc: Global,
    list: &mut Vec<Looping>,
    name: &str,
    index: u32,
    main: bool,
) -> Result<(), AllocError> {
    let name = Some(Text::of(alloc, name)?);
    push(list, Looping { name, index, main })
}

// The key of a type and a name, which are separated by a blank, in the group `g`.
fn key(alloc: Global, text: &str) -> Result<Key, Fail> {
    let (kind, name) = text.split_once(' ').unwrap_or((text, ""));
    let place = place(alloc, "g")?;
    Ok(Key::of(alloc, &place, kind, name)?)
}

// What is known of a state: `later`, `never`, or the state as JSON.
fn seen(alloc: Global, known: &str) -> Result<Seen, Fail> {
    if known == "later" {
        return Ok(Seen::Later);
    }
    if known == "never" {
        return Ok(Seen::Never);
    }
    Ok(Seen::Now(Value::from_json(alloc, known.as_bytes())?))
}

fn state(alloc: Global, line: &str) -> Result<StateAt, Fail> {
    let (text, known) = line.split_once(" = ").unwrap_or((line, "never"));
    let key = key(alloc, text)?;
    let seen = seen(alloc, known)?;
    Ok(StateAt { key, seen })
}

// Adds the state of each line.
fn add_states(alloc: Global, list: &mut Vec<StateAt>, table: &str) -> Result<(), Fail> {
    for line in table.lines() {
        push(list, state(alloc, line)?)?;
    }
    Ok(())
}

fn spelled(alloc: Global, line: &str) -> Result<Spelled, Fail> {
    let (kind, name) = line.split_once(' ').unwrap_or((line, ""));
    let key = key(alloc, line)?;
    let spelling = Text::from_string(format!(in alloc; "{kind}/{name}")?);
    Ok(Spelled { spelling, key })
}

/// Adds the resource of each line, a type and a name.
pub fn add_names(alloc: Global, list: &mut Vec<Spelled>, table: &str) -> Result<(), Fail> {
    for line in table.lines() {
        push(list, spelled(alloc, line)?)?;
    }
    Ok(())
}

// The output of a name, a type and what is known.
fn output(alloc: Global, line: &str) -> Result<OutputAt, Fail> {
    let (text, known) = line.split_once(" = ").unwrap_or((line, "absent"));
    let (name, kind) = text.split_once(' ').unwrap_or((text, "string"));
    let name = Text::of(alloc, name)?;
    let kind = Text::of(alloc, kind)?;
    let slot = slot(alloc, known)?;
    Ok(OutputAt { name, kind, slot })
}

fn add_outputs(alloc: Global, list: &mut Vec<OutputAt>, table: &str) -> Result<(), Fail> {
    for line in table.lines() {
        push(list, output(alloc, line)?)?;
    }
    Ok(())
}

// The key of the nested deployment of this name in that group.
fn module_key(alloc: Global, group: &str, name: &str) -> Result<Key, Fail> {
    let place = place(alloc, group)?;
    Ok(Key::of(alloc, &place, "Microsoft.Resources/deployments", name)?)
}

/// Adds the nested deployment of this name in that group, with the outputs of the lines.
pub fn add_module(
    alloc: Global,
    list: &mut Vec<ModuleAt>,
    group: &str,
    name: &str,
    table: &str,
) -> Result<(), Fail> {
    let mut outputs = Vec::new(alloc);
    add_outputs(alloc, &mut outputs, table)?;
    let key = module_key(alloc, group, name)?;
    Ok(push(list, ModuleAt { key, outputs })?)
}

/// An environment with no entries.
pub fn empty<'a>(alloc: Global, place: &'a Place) -> Env<'a> {
    Env {
        parameters: Vec::new(alloc),
        variables: Vec::new(alloc),
        loops: Vec::new(alloc),
        place,
        states: Vec::new(alloc),
        names: Vec::new(alloc),
        modules: Vec::new(alloc),
        symbols: Vec::new(alloc),
        inside_name: false,
    }
}

const PARAMETERS: &str = r#"On = true
list = [1,null,3]
sizes = {"Sku":1,"sku":2,"in":{"a":"x"}}
gone = absent
soon = late
on = false"#;

const VARIABLES: &str = r#"v = "var"
gone = absent
soon = late"#;

const STATES: &str = r#"A/b st1 = {"properties":{"p":{"q":[7]}},"tier":"hot"}
A/b st10 = {"properties":{"p":{"q":[10]}}}
A/b namer = {"properties":{"name":"st1"}}
A/b soon = later
A/b never = never"#;

const NAMES: &str = "A/b st1\nA/b soon\nA/b twin\nC/d twin\nA/b st1";

// Adds the nested deployments.
fn fill_modules(alloc: Global, modules: &mut Vec<ModuleAt>) -> Result<(), Fail> {
    add_module(
        alloc,
        modules,
        "g",
        "whole",
        "x string = \"hello\"\nY int = 5",
    )?;
    add_module(alloc, modules, "g", "half", "a int = 1\nz array = late")?;
    add_module(alloc, modules, "g", "lost", "a int = 1\nb bool = absent")
}

// Adds the loops around, the nearest first.
fn fill_loops(alloc: Global, loops: &mut Vec<Looping>) -> Result<(), AllocError> {
    add_loop(alloc, loops, "disks", 2, false)?;
    add_loop(alloc, loops, "vms", 5, true)?;
    add_loop(alloc, loops, "Disks", 7, false)
}

/// Adds the entries that the tables of the tests speak of.
pub fn fill(alloc: Global, env: &mut Env) -> Result<(), Fail> {
    add_named(alloc, &mut env.parameters, PARAMETERS)?;
    add_named(alloc, &mut env.variables, VARIABLES)?;
    fill_loops(alloc, &mut env.loops)?;
    add_states(alloc, &mut env.states, STATES)?;
    add_names(alloc, &mut env.names, NAMES)?;
    fill_modules(alloc, &mut env.modules)
}
