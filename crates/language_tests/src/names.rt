// Loops around, and what a name means, in environments of their own.

use crate::answers::Question;
use crate::environment::{add_loop, add_module, add_names};
use crate::table::{check, letting_go};
use crate::told::{say_maybe, say_stop};
use arm_env::entries::Entries;
use arm_env::env::{Env, Looping};
use arm_env::loops::copy_index;
use arm_env::stop::Stop;
use arm_ids::Key;
use arm_value::{Text, Value};
use std::alloc::{AllocError, Global};
use std::test::Fail;

/// Adds what `copyIndex` gives for the items of the array in these loops.
pub fn say_index(
    out: &mut String,
    alloc: Global,
    loops: &[Looping],
    list: &Value,
) -> Result<(), AllocError> {
    let Value::Array(items) = list else {
        return out.push_str("no array");
    };
    let index = copy_index(loops, items.as_slice());
    letting_go(say_maybe(out, alloc, &index, "none"), index)
}

const INDICES: &str = r#"[] -> 5
[-6] -> -1
["DISKS"] -> 2
["vms",10] -> 15
["nowhere"] -> none
[9223372036854775803] -> none
[1,"vms"] -> none"#;

#[test]
fn an_index_is_that_of_the_main_loop_or_of_the_named_one(rt: HostRuntime) -> Result<(), Fail> {
    check(rt.alloc(), Question::Index, INDICES)
}

#[test]
fn without_loops_there_is_no_index(rt: HostRuntime) -> Result<(), Fail> {
    check(rt.alloc(), Question::IndexOutside, "[] -> none")
}

fn add_two(alloc: Global, loops: &mut Vec<Looping>) -> Result<(), AllocError> {
    add_loop(alloc, loops, "a", 3, false)?;
    add_loop(alloc, loops, "b", 4, false)
}

/// The same in two loops of which none is the main one.
pub fn say_nearest(out: &mut String, alloc: Global, list: &Value) -> Result<(), AllocError> {
    let mut loops = Vec::new(alloc);
    add_two(alloc, &mut loops)?;
    say_index(out, alloc, &loops, list)
}

#[test]
fn without_a_main_loop_the_nearest_counts(rt: HostRuntime) -> Result<(), Fail> {
    check(rt.alloc(), Question::IndexNearest, "[] -> 3")
}

fn say_named(out: &mut String, alloc: Global, found: &Result<Key, Stop>) -> Result<(), AllocError> {
    match found {
        Ok(key) => out.push_str(key.to_id(alloc)?.as_str()),
        Err(stop) => say_stop(out, alloc, stop),
    }
}

/// Adds the id of the key that the text, which is no id, stands for.
pub fn say_name(out: &mut String, alloc: Global, env: &Env, asked: &str) -> Result<(), AllocError> {
    let name = Text::of(alloc, asked)?;
    let found = env.named(alloc, &name);
    letting_go(say_named(out, alloc, &found), found)
}

/// Adds two deployments around, the inner one first, and resources of which two have one name.
pub fn fill(alloc: Global, env: &mut Env) -> Result<(), Fail> {
    add_module(alloc, &mut env.modules, "inner", "m", "")?;
    add_module(alloc, &mut env.modules, "outer", "m", "")?;
    add_module(alloc, &mut env.modules, "outer", "n", "")?;
    add_names(alloc, &mut env.names, "C/d n\nC/d twin\nE/f twin")
}

const NAMES: &str = "\
m -> /subscriptions/s1/resourcegroups/inner/providers/microsoft.resources/deployments/m
Microsoft.Resources/Deployments/N -> \
/subscriptions/s1/resourcegroups/outer/providers/microsoft.resources/deployments/n
N -> /subscriptions/s1/resourcegroups/g/providers/c/d/n
twin -> none
nobody -> none";

#[test]
fn a_name_means_one_resource_or_the_innermost_deployment(rt: HostRuntime) -> Result<(), Fail> {
    check(rt.alloc(), Question::Name, NAMES)
}
