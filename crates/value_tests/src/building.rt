// Values, paths and lists that are built part by part.

use crate::answers::Question;
use crate::table::{check, letting_go};
use crate::written::say_json;
use arm_value::{
    Field, Fields, Items, ListOf, OutOfMemory, Path, Text, Texts, Value, copy_texts, deepest_member,
};
use std::alloc::{AllocError, Global};
use std::test::Fail;

/// What is built.
#[derive(Clone, Copy)]
pub enum Built {
    Items,
    Fields,
    Members,
    Path,
    Joined,
    Texts,
}

// Adds the text of a value, which is dropped.
fn say_whole(out: &mut String, alloc: Global, value: Value) -> Result<(), AllocError> {
    letting_go(say_json(out, alloc, &value), value)
}

fn push_two(alloc: Global, items: &mut Items) -> Result<(), OutOfMemory> {
    items.push(alloc, Value::Null)?;
    items.push(alloc, Value::Bool(true))
}

// The name of the type of the item at that place, `none` at the end.
fn type_at(items: &Items, place: usize) -> &str {
    match items.at(place) {
        Some(value) => value.type_name(),
        None => "none",
    }
}

// Adds how many items there are, the types of the first and of the one after the last, and all.
fn say_items(out: &mut String, alloc: Global) -> Result<(), AllocError> {
    let mut items = Items::new();
    push_two(alloc, &mut items)?;
    write!(
        out,
        "{} {} {} ",
        items.len(),
        type_at(&items, 0),
        type_at(&items, 2)
    )?;
    say_whole(out, alloc, Value::Array(items))
}

#[test]
fn items_are_pushed_last(rt: HostRuntime) -> Result<(), Fail> {
    let line = "two items -> 2 null none [null,true]";
    check(rt.alloc(), Question::Built(Built::Items), line)
}

fn set_three(alloc: Global, fields: &mut Fields) -> Result<(), OutOfMemory> {
    fields.set(alloc, "b", Value::Array(Items::new()))?;
    fields.set(alloc, "a", Value::Int(7))?;
    fields.set(alloc, "b", Value::Int(8))
}

// Adds how deep the copy of the value nests, and the copy.
fn say_copy(out: &mut String, alloc: Global, value: &Value) -> Result<(), AllocError> {
    let copy = value.copy(alloc)?;
    write!(out, "{} ", copy.nesting())?;
    say_whole(out, alloc, copy)
}

// Adds how many members there are, and the copy of their object.
fn say_fields(out: &mut String, alloc: Global) -> Result<(), AllocError> {
    let mut fields = Fields::new();
    set_three(alloc, &mut fields)?;
    write!(out, "{} ", fields.len())?;
    let value = Value::Object(fields);
    letting_go(say_copy(out, alloc, &value), value)
}

#[test]
fn a_member_that_is_set_takes_the_place_of_its_name(rt: HostRuntime) -> Result<(), Fail> {
    let line = "two members -> 2 1 {\"a\":7,\"b\":8}";
    check(rt.alloc(), Question::Built(Built::Fields), line)
}

// Adds a member of a name and a number.
fn add(
    alloc: Global,
    members: &mut Vec<Field>,
    name: &str,
    number: i64,
) -> Result<(), OutOfMemory> {
    let name = Text::of(alloc, name)?;
    let value = Value::Int(number);
    match members.push(Field { name, value }) {
        Ok(()) => Ok(()),
        Err(_) => Err(AllocError),
    }
}

fn add_three(alloc: Global, members: &mut Vec<Field>) -> Result<(), OutOfMemory> {
    add(alloc, members, "b", 1)?;
    add(alloc, members, "a", 2)?;
    add(alloc, members, "b", 3)
}

// Adds the object of three members, none of which nests.
fn say_members(out: &mut String, alloc: Global) -> Result<(), AllocError> {
    let mut members = Vec::new(alloc);
    add_three(alloc, &mut members)?;
    if deepest_member(&members) != 0 {
        return out.push_str("a member nests");
    }
    let value = Value::Object(Fields::from_members(alloc, members)?);
    say_whole(out, alloc, value)
}

#[test]
fn the_last_of_members_of_one_name_counts(rt: HostRuntime) -> Result<(), Fail> {
    let line = "three members -> {\"a\":2,\"b\":3}";
    check(rt.alloc(), Question::Built(Built::Members), line)
}

// The path of an item of a member.
fn path(alloc: Global) -> Result<Path, OutOfMemory> {
    Path::root(alloc).member(alloc, "a/b~c")?.item(alloc, 10)
}

fn say_path(out: &mut String, alloc: Global) -> Result<(), AllocError> {
    out.push_str(path(alloc)?.as_str())
}

#[test]
fn paths_are_json_pointers(rt: HostRuntime) -> Result<(), Fail> {
    check(
        rt.alloc(),
        Question::Built(Built::Path),
        "the path -> /a~1b~0c/10",
    )
}

// The path from the root to the item, and on to a member with no name.
fn joined(alloc: Global) -> Result<Path, OutOfMemory> {
    let empty_name = Path::root(alloc).member(alloc, "")?;
    path(alloc)?.join(alloc, &empty_name)
}

// Adds the text of a copy of that path.
fn say_joined(out: &mut String, alloc: Global) -> Result<(), AllocError> {
    let path = joined(alloc)?;
    out.push_str(path.copy(alloc)?.into_text().as_str())
}

#[test]
fn paths_are_joined_and_copied(rt: HostRuntime) -> Result<(), Fail> {
    check(
        rt.alloc(),
        Question::Built(Built::Joined),
        "the path -> /a~1b~0c/10/",
    )
}

// Adds the two texts.
fn push_texts(alloc: Global, texts: &mut Texts) -> Result<(), OutOfMemory> {
    texts.push(Text::of(alloc, "x")?)?;
    texts.push(Text::of(alloc, "y")?)
}

// The text at that place, `none` at the end.
fn text_at(texts: &Texts, place: usize) -> &str {
    match texts.at(place) {
        Some(text) => text.as_str(),
        None => "none",
    }
}

// Adds the texts of a list, what is after them, how many they are, and how many a vector has.
fn say_list(out: &mut String, texts: Texts) -> Result<(), AllocError> {
    let (first, second) = (text_at(&texts, 0), text_at(&texts, 1));
    write!(
        out,
        "{first} {second} {} {} ",
        text_at(&texts, 2),
        texts.len()
    )?;
    write!(out, "{}", texts.into_vec().len())
}

// Adds the same of a copy of two texts.
fn say_texts(out: &mut String, alloc: Global) -> Result<(), AllocError> {
    let mut texts: Texts = ListOf::new(alloc);
    push_texts(alloc, &mut texts)?;
    say_list(out, copy_texts(alloc, &texts)?)
}

#[test]
fn texts_are_copied_in_their_order(rt: HostRuntime) -> Result<(), Fail> {
    check(
        rt.alloc(),
        Question::Built(Built::Texts),
        "the copies -> x y none 2 2",
    )
}

/// Adds what is built.
pub fn say_built(out: &mut String, alloc: Global, built: Built) -> Result<(), AllocError> {
    match built {
        Built::Items => say_items(out, alloc),
        Built::Fields => say_fields(out, alloc),
        Built::Members => say_members(out, alloc),
        Built::Path => say_path(out, alloc),
        Built::Joined => say_joined(out, alloc),
        Built::Texts => say_texts(out, alloc),
    }
}
