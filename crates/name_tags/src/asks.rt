// The names for which elements of `dependsOn` ask, as tags.
ghost use Rattle.std.specs.Prelude.{◌≡◌, ◌∷◌, ◌++◌, [], IfOk, map, Some, true, false};
ghost use Rattle.name_set.specs.Names.{is_named};
ghost use Rattle.arm_value.specs.View.{json};
ghost use Rattle.template_tree.specs.Tree.{TemplateTree};
ghost use Rattle.arm_env.specs.Find.{id_key};
ghost use Rattle.plan_cells.specs.Resources.{resources_in};
ghost use Rattle.tag_needs.specs.Tags.{tags_of};
ghost use Rattle.plan_codes.specs.NameCodes.{key_asks, asks_in_one, asks_in_two, text_asks, value_asks, values_ask};
ghost use Rattle.name_tags.specs.Loops.{loop_titles};

use crate::names::{push_key, push_spelled};
use crate::tag::{loop_tag, symbol_tag};
use arm_env::find::id_key;
use arm_value::{OutOfMemory, Text, Value};
use name_set::NameSet;
use std::alloc::Global;
use template_parts::Form;

// Lists the key, where the text is an id.
fn push_id(
    alloc: Global,
    tags: &mut Vec<Vec<usize>>,
    scope: usize,
    text: &Text,
) -> Result<(), OutOfMemory>
    ensures { IfOk result (λ _. tags_of tags.new ≡ tags_of tags.old ++ key_asks scope (id_key text.now)) }
{
    match id_key(alloc, text)? {
        Some(key) => push_key(alloc, tags, scope, &key),
        None => Ok(()),
    }
}

// Lists the name of a loop.
fn push_loop_name(
    alloc: Global,
    tags: &mut Vec<Vec<usize>>,
    scope: usize,
    text: &Text,
) -> Result<(), OutOfMemory>
    ensures { IfOk result (λ _. tags_of tags.new ≡ tags_of tags.old ++ asks_in_one scope true text.now) }
{
    let tag = loop_tag(alloc, scope, text)?;
    tags.push(tag)?;
    Ok(())
}

// Lists the name, and the key where the text is an id.
fn push_name(
    alloc: Global,
    tags: &mut Vec<Vec<usize>>,
    scope: usize,
    text: &Text,
) -> Result<(), OutOfMemory>
    ensures { IfOk result (λ _. tags_of tags.new ≡ tags_of tags.old ++ asks_in_one scope false text.now) }
{
    push_spelled(alloc, tags, scope, text)?;
    push_id(alloc, tags, scope, text)
}

// Lists for what a text asks in the first form: a loop of the name, or else what has the text as its name or id.
fn push_asks_in_one(
    alloc: Global,
    tags: &mut Vec<Vec<usize>>,
    scope: usize,
    loops: &NameSet,
    text: &Text,
) -> Result<(), OutOfMemory>
    ensures { IfOk result (λ _. tags_of tags.new
        ≡ tags_of tags.old ++ asks_in_one scope (is_named loops.now text.now) text.now) }
{
    if loops.has(alloc, text)? {
        push_loop_name(alloc, tags, scope, text)
    } else {
        push_name(alloc, tags, scope, text)
    }
}

// Lists for what a text asks in the second form: what has the text as its symbolic name, with its index or without, or
// as its id.
fn push_asks_in_two(
    alloc: Global,
    tags: &mut Vec<Vec<usize>>,
    scope: usize,
    text: &Text,
) -> Result<(), OutOfMemory>
    ensures { IfOk result (λ _. tags_of tags.new ≡ tags_of tags.old ++ asks_in_two scope text.now) }
{
    let tag = symbol_tag(alloc, scope, text.as_str())?;
    tags.push(tag)?;
    push_id(alloc, tags, scope, text)
}

// Lists for what a text asks.
fn push_text_asks(
    alloc: Global,
    tags: &mut Vec<Vec<usize>>,
    scope: usize,
    form: Form,
    loops: &NameSet,
    text: &Text,
) -> Result<(), OutOfMemory>
    ensures { IfOk result (λ _. (u : TemplateTree) → loops.now ≡ loop_titles (resources_in u)
        → tags_of tags.new ≡ tags_of tags.old ++ text_asks scope form (Some u) text.now) }
{
    match form {
        Form::One => push_asks_in_one(alloc, tags, scope, loops, text),
        Form::Two => push_asks_in_two(alloc, tags, scope, text),
    }
}

// Lists for what a value asks: one that is no text asks for nothing.
fn push_value_asks(
    alloc: Global,
    tags: &mut Vec<Vec<usize>>,
    scope: usize,
    form: Form,
    loops: &NameSet,
    value: &Value,
) -> Result<(), OutOfMemory>
    ensures { IfOk result (λ _. (u : TemplateTree) → loops.now ≡ loop_titles (resources_in u)
        → tags_of tags.new ≡ tags_of tags.old ++ value_asks scope form (Some u) (json value.now)) }
{
    match value {
        Value::Text(text) => push_text_asks(alloc, tags, scope, form, loops, text),
        _ => Ok(()),
    }
}

/// Lists for what the values of elements of `dependsOn` ask last, in a scope of this number and form, whose template
/// has loops of these names.
pub fn push_asks(
    alloc: Global,
    tags: &mut Vec<Vec<usize>>,
    scope: usize,
    form: Form,
    loops: &NameSet,
    values: &[Value],
) -> Result<(), OutOfMemory>
    ensures { IfOk result (λ _. (u : TemplateTree) → loops.now ≡ loop_titles (resources_in u)
        → tags_of tags.new ≡ tags_of tags.old ++ values_ask scope form (Some u) (map json values.now)) }
{
    for value in values {
        push_value_asks(alloc, tags, scope, form, loops, value)?;
    }
    Ok(())
}
