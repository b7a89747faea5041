// Outputs of templates with their conditions and loops, and the loops of variables.

use crate::answers::Question;
use crate::table::{check, letting_go};
use crate::told::{say_found, say_maybe, say_stop};
use arm_env::entries::Around;
use arm_env::env::Env;
use arm_env::stop::Stop;
use arm_eval::{Content, looped_value, output_value};
use arm_value::{Text, Value};
use std::alloc::{AllocError, Global};
use std::test::Fail;

// Adds the value of an output, `left away`, or what is known in place of it.
fn say_there(
    out: &mut String,
    alloc: Global,
    found: &Result<Option<Value>, Stop>,
) -> Result<(), AllocError> {
    match found {
        Ok(there) => say_maybe(out, alloc, there, "left away"),
        Err(stop) => say_stop(out, alloc, stop),
    }
}

// Adds what there is of an output with this condition, by what gives it its value.
fn say_content(
    out: &mut String,
    alloc: Global,
    env: &Env,
    content: &Content,
    condition: Option<&Value>,
) -> Result<(), AllocError> {
    let around = Around {
        loops: env.loops.as_slice(),
        place: env.place,
    };
    let found = output_value(alloc, env, &around, condition, content);
    letting_go(say_there(out, alloc, &found), found)
}

// The count and the input of a `copy`.
fn copied(copy: &Value) -> Option<Content<'_>> {
    match (copy.look("count"), copy.look("input")) {
        (Some(count), Some(input)) => Some(Content::Copy { count, input }),
        _ => None,
    }
}

// What gives the output its value: its `copy`, or else its `value`.
fn content(output: &Value) -> Option<Content<'_>> {
    match output.look("copy") {
        Some(copy) => copied(copy),
        None => match output.look("value") {
            Some(tree) => Some(Content::Tree(tree)),
            None => None,
        },
    }
}

/// Adds what there is of an output.
pub fn say_output(
    out: &mut String,
    alloc: Global,
    env: &Env,
    output: &Value,
) -> Result<(), AllocError> {
    match content(output) {
        Some(content) => say_content(out, alloc, env, &content, output.look("condition")),
        None => out.push_str("no output"),
    }
}

const OUTPUTS: &str = r#"{"value":"[parameters('on')]"} -> true
{"value":"[parameters('soon')]"} -> late
{"value":"[parameters('gone')]"} -> none
{"condition":true,"value":1} -> 1
{"condition":false,"value":"[parameters('gone')]"} -> left away
{"condition":"[not(parameters('on'))]","value":"[parameters('soon')]"} -> left away
{"condition":"[parameters('on')]","value":"[parameters('soon')]"} -> late
{"condition":"[parameters('soon')]","value":1} -> late
{"condition":"[parameters('gone')]","value":1} -> none
{"condition":1,"value":1} -> none
{"copy":{"count":3,"input":"[copyIndex()]"}} -> [0,1,2]
{"copy":{"count":2,"input":{"i":"[copyIndex(10)]","v":"[copyIndex('vms')]"}}} -> [{"i":10,"v":5},{"i":11,"v":5}]
{"copy":{"count":"[length(parameters('list'))]","input":"[parameters('list')[copyIndex()]]"}} -> [1,null,3]
{"copy":{"count":0,"input":"[parameters('gone')]"}} -> []
{"copy":{"count":-1,"input":1}} -> none
{"copy":{"count":801,"input":1}} -> none
{"copy":{"count":"[parameters('soon')]","input":1}} -> late
{"copy":{"count":2,"input":"[if(equals(copyIndex(), 1), parameters('soon'), parameters('gone'))]"}} -> late
{"condition":false,"copy":{"count":2,"input":1}} -> left away"#;

#[test]
fn an_output_has_a_value_or_is_left_away(rt: HostRuntime) -> Result<(), Fail> {
    check(rt.alloc(), Question::Output, OUTPUTS)
}

fn say_looped(
    out: &mut String,
    alloc: Global,
    env: &Env,
    name: &Text,
    (count, input): (&Value, &Value),
) -> Result<(), AllocError> {
    let around = Around {
        loops: env.loops.as_slice(),
        place: env.place,
    };
    let found = looped_value(alloc, env, &around, name, count, input);
    letting_go(say_found(out, alloc, &found), found)
}

/// Adds the value of a loop.
pub fn say_loop(
    out: &mut String,
    alloc: Global,
    env: &Env,
    looped: &Value,
) -> Result<(), AllocError> {
    match (
        looped.look("name"),
        looped.look("count"),
        looped.look("input"),
    ) {
        (Some(Value::Text(name)), Some(count), Some(input)) => {
            say_looped(out, alloc, env, name, (count, input))
        }
        _ => out.push_str("no loop"),
    }
}

const LOOPS: &str = r#"{"name":"v","count":3,"input":"[copyIndex('V')]"} -> [0,1,2]
{"name":"v","count":2,"input":["[copyIndex()]","[copyIndex('disks')]"]} -> [[5,2],[5,2]]
{"name":"value","count":"[add(1, 2)]","input":"[parameters('list')[copyIndex('value')]]"} -> [1,null,3]
{"name":"v","count":0,"input":"[parameters('gone')]"} -> []
{"name":"v","count":2,"input":"[parameters('gone')]"} -> none
{"name":"v","count":-1,"input":1} -> none
{"name":"v","count":801,"input":1} -> none
{"name":"v","count":"1","input":1} -> none
{"name":"v","count":"[parameters('soon')]","input":"[nope()]"} -> late
{"name":"v","count":2,"input":"[if(equals(copyIndex('v'), 1), parameters('soon'), parameters('gone'))]"} -> late"#;

#[test]
fn a_loop_of_a_name_gives_an_array(rt: HostRuntime) -> Result<(), Fail> {
    check(rt.alloc(), Question::Loop, LOOPS)
}
