// Where trees have no value: paths to their deepest parts that have none.

use crate::answers::Question;
use crate::table::{check, letting_go};
use crate::told::say_stop;
use arm_env::entries::Around;
use arm_env::env::Env;
use arm_env::stop::Stop;
use arm_value::Value;
use missing_values::{Step, missing_path};
use std::alloc::{AllocError, Global};
use std::test::Fail;

fn say_step(out: &mut String, step: &Step) -> Result<(), AllocError> {
    match step {
        Step::Member(name) => write!(out, "/{}", name.as_str()),
        Step::Item(place) => write!(out, "/{place}"),
    }
}

// Adds the path, or `itself` where it is empty. The step that is nearest to the part comes first.
fn say_steps(out: &mut String, steps: &[Step]) -> Result<(), AllocError> {
    if steps.is_empty() {
        return out.push_str("itself");
    }
    for step in steps.iter().rev() {
        say_step(out, step)?;
    }
    Ok(())
}

// Adds the path, or `there` where the tree has a value.
fn say_found(
    out: &mut String,
    alloc: Global,
    found: &Result<Option<Vec<Step>>, Stop>,
) -> Result<(), AllocError> {
    match found {
        Ok(Some(steps)) => say_steps(out, steps.as_slice()),
        Ok(None) => out.push_str("there"),
        Err(stop) => say_stop(out, alloc, stop),
    }
}

/// Adds the path to the deepest part of the tree that has no value.
pub fn say_path(
    out: &mut String,
    alloc: Global,
    env: &Env,
    tree: &Value,
) -> Result<(), AllocError> {
    let around = Around {
        loops: env.loops.as_slice(),
        place: env.place,
    };
    let found = missing_path(alloc, env, &around, tree);
    letting_go(say_found(out, alloc, &found), found)
}

const PATHS: &str = r#"1 -> there
"[parameters('on')]" -> there
"[parameters('gone')]" -> itself
"[add(1,]" -> itself
"[parameters('soon')]" -> late
{"a":1,"b":["x","[parameters('gone')]"]} -> /b/1
{"b":"[parameters('gone')]","a":{"c":[1,[2,"[nope()]"]]}} -> /a/c/1/1
{"a":{"copy":"x"},"b":"[parameters('gone')]"} -> /a
["[parameters('on')]",{"a":"[parameters('gone')]"},"[parameters('gone')]"] -> /1/a
["[parameters('gone')]","[parameters('soon')]"] -> late
{"a":{"copy":[{"name":"n","count":2,"input":"[copyIndex('n')]"}]}} -> there
{"a":{"copy":[{"name":"n","count":2,"input":"[nope()]"}]}} -> /a/copy/0/input
{"a":{"copy":[{"name":"n","count":0,"input":"[parameters('gone')]"}]}} -> there
{"a":{"copy":[{"name":"n","count":2,"input":"[parameters('list')[add(copyIndex('n'), 2)]]"}]}} -> /a/copy/0/input
{"copy":[{"name":"m","count":1,"input":1},{"Name":"n","Count":1,"Input":{"x":"[nope()]"}}]} -> /copy/1/Input/x
{"copy":[{"name":"n","count":"[parameters('gone')]","input":"[nope()]"}]} -> /copy/0/count
{"copy":[{"name":"n","count":-1,"input":"[nope()]"}],"z":1} -> itself
{"copy":[{"name":"n","count":1,"input":1}],"n":1} -> itself
{"copy":[{"name":"n","count":1,"input":{"copy":[{"name":"i","count":2,"input":"[x]"}]}}]} -> /copy/0/input/copy/0/input
{"copy":[1],"a":"[nope()]"} -> /a"#;

#[test]
fn a_path_leads_to_the_deepest_part_without_a_value(rt: HostRuntime) -> Result<(), Fail> {
    check(rt.alloc(), Question::Path, PATHS)
}
