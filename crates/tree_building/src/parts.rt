// Arrays and objects of what their parts become.
ghost use Rattle.std.specs.Prelude.{◌≡◌, ◌≤◌, ◌∷◌, ◌++◌, [], ℕ, List, IfOk};
ghost use Rattle.arm_value.specs.Json.{Json, array, object, row, pairs, put, put_each, nesting, items_nesting};
ghost use Rattle.arm_value.specs.View.{json};
ghost use Rattle.arm_expr.specs.Print.{printed};
ghost use Rattle.arm_expr.specs.Tree.{Tree};
ghost use Rattle.emitted_expressions.specs.Built.{IsText};
ghost use Rattle.emitted_trees.specs.Templates.{TemplateTree, TemplateItems, TemplateMembers, TemplateValue};
ghost use Rattle.emitted_trees.specs.Templates as t;
ghost use Rattle.emitted_trees.specs.Written.{items_json, tree_json, loop_json, copy_member};
ghost use Rattle.tree_building.specs.Built.{IsTree, AreItems, IsLoop, Matches, IsValue, Fits, NestsWithin, members_of};
ghost use Rattle.tree_building.specs.Built.{grown, all_grown, AreParts, AreFields};

use arm_env::objects::{with_copy, with_value};
use arm_value::{Fields, Items, OutOfMemory, Text, Value};
use emitted_expressions::lacks;
use std::alloc::Global;

/// How often a loop runs, as the text of an expression in brackets, and its input.
#[derive(Drop)]
pub struct Looped {
    /// The text of the expression.
    pub count: Text,
    /// The input.
    pub input: Value,
}

/// What the value of a member, a variable or an output becomes.
#[derive(Drop)]
pub enum Written {
    /// A value.
    Tree(Value),
    /// A loop.
    Each(Looped),
}

/// The members of an object, as far as they are built.
#[derive(Drop)]
pub struct Parts {
    pub(crate) own: Fields,
    pub(crate) loops: Items,
}

// ---- arrays

fn pushed(alloc: Global, items: Items, value: Value) -> Result<Items, OutOfMemory>
    requires { nesting (json value) ≤ 119 }
    ensures { IfOk result (λ js. js ≡ items ++ json value ∷ []) }
{
    let mut items = items;
    match items.push(alloc, value) {
        Ok(()) => Ok(items),
        Err(_) => lacks(items),
    }
}

/// The items with one more.
pub(crate) fn with_item(
    alloc: Global,
    items: Items,
    value: Result<Value, OutOfMemory>,
) -> Result<Items, OutOfMemory>
    requires { NestsWithin 119 value }
    ensures { (e : TemplateTree) → IsTree e value → IfOk result (λ js. js ≡ items ++ tree_json e ∷ []) }
{
    match value {
        Ok(value) => pushed(alloc, items, value),
        Err(_) => lacks(items),
    }
}

/// The array of items.
pub(crate) fn array_of(items: Result<Items, OutOfMemory>) -> Result<Value, OutOfMemory>
    ensures { (es : TemplateItems) → AreItems es items → IsTree (t.array es) result }
{
    match items {
        Ok(items) => Ok(Value::Array(items)),
        Err(error) => Err(error),
    }
}

// ---- objects

/// No members yet.
pub fn no_parts() -> Parts
    ensures { members_of result ≡ ([], []) }
{
    Parts {
        own: Fields::new(),
        loops: Items::new(),
    }
}

fn with_value_at(
    alloc: Global,
    parts: Parts,
    name: &Text,
    value: Value,
) -> Result<Parts, OutOfMemory>
    requires { nesting (json value) ≤ 119 }
    ensures { AreParts (put name.now (json value) (members_of parts).0, (members_of parts).1) result }
{
    let Parts { own, loops } = parts;
    match with_value(alloc, own, name.as_str(), value) {
        Ok(own) => Ok(Parts { own, loops }),
        Err(_) => lacks(loops),
    }
}

/// The value of a tree.
pub(crate) fn tree_written(value: Result<Value, OutOfMemory>) -> Result<Written, OutOfMemory>
    ensures { (e : TemplateTree) → IsTree e value → IsValue (t.plain e) result }
{
    match value {
        Ok(value) => Ok(Written::Tree(value)),
        Err(error) => Err(error),
    }
}

/// A loop of a count and an input.
pub(crate) fn loop_written(
    count: Result<Text, OutOfMemory>,
    input: Result<Value, OutOfMemory>,
) -> Result<Written, OutOfMemory>
    ensures { (c : Tree) (e : TemplateTree) → IsText (printed c) count → IsTree e input → IsValue (t.each c e) result }
{
    match count {
        Ok(count) => match input {
            Ok(input) => Ok(Written::Each(Looped { count, input })),
            Err(_) => lacks(count),
        },
        Err(_) => lacks(input),
    }
}

// The loop of a name, as a member of an object.
fn loop_value(alloc: Global, name: &Text, looped: Looped) -> Result<Value, OutOfMemory>
    requires { nesting (json looped.input) ≤ 117 }
    ensures value { (c : Tree) (e : TemplateTree) → IsLoop c e looped
        → IfOk result (λ v. json v ≡ loop_json name.now c (tree_json e)) }
    ensures nests { NestsWithin 118 result }
{
    let Looped { count, input } = looped;
    let Ok(named) = with_copy(alloc, Fields::new(), "name", name) else {
        return lacks((count, input));
    };
    let Ok(counted) = with_value(alloc, named, "count", Value::Text(count)) else {
        return lacks(input);
    };
    let whole = with_value(alloc, counted, "input", input)?;
    Ok(Value::Object(whole))
}

// The members with one more loop.
fn with_loop_at(
    alloc: Global,
    parts: Parts,
    name: &Text,
    looped: Looped,
) -> Result<Parts, OutOfMemory>
    requires { nesting (json looped.input) ≤ 117 }
    ensures { (c : Tree) (e : TemplateTree) → IsLoop c e looped
        → AreParts (grown name.now (t.each c e) (members_of parts)) result }
{
    match loop_value(alloc, name, looped) {
        Ok(value) => put_loop(alloc, parts, value),
        Err(_) => lacks(parts),
    }
}

fn with_made(alloc: Global, parts: Parts, name: &Text, made: Written) -> Result<Parts, OutOfMemory>
    requires { Fits made }
    ensures { (v : TemplateValue) → Matches v made → AreParts (grown name.now v (members_of parts)) result }
{
    match made {
        Written::Tree(value) => with_value_at(alloc, parts, name, value),
        Written::Each(looped) => with_loop_at(alloc, parts, name, looped),
    }
}

/// The members with one more.
pub(crate) fn with_written(
    alloc: Global,
    parts: Parts,
    name: &Text,
    made: Result<Written, OutOfMemory>,
) -> Result<Parts, OutOfMemory>
    requires { IfOk made Fits }
    ensures { (v : TemplateValue) → IsValue v made → AreParts (grown name.now v (members_of parts)) result }
{
    match made {
        Ok(made) => with_made(alloc, parts, name, made),
        Err(_) => lacks(parts),
    }
}

fn put_loop(alloc: Global, parts: Parts, value: Value) -> Result<Parts, OutOfMemory>
    requires { nesting (json value) ≤ 118 }
    ensures { AreParts ((members_of parts).0, (members_of parts).1 ++ json value ∷ []) result }
{
    let Parts { own, loops } = parts;
    match pushed(alloc, loops, value) {
        Ok(loops) => Ok(Parts { own, loops }),
        Err(_) => lacks(own),
    }
}

// The members with the member `copy` of the loops, where there is one.
fn with_loops(alloc: Global, own: Fields, loops: Items) -> Result<Fields, OutOfMemory>
    requires { items_nesting loops ≤ 118 }
    ensures { IfOk result (λ f. f ≡ put_each own (copy_member loops)) }
{
    if loops.len() == 0 {
        return Ok(own);
    }
    with_value(alloc, own, "copy", Value::Array(loops))
}

/// The members of an object, whose loops are in its member `copy`.
///
/// # Errors
///
/// `OutOfMemory`, also where the members could not be built.
pub fn fields_of(alloc: Global, parts: Result<Parts, OutOfMemory>) -> Result<Fields, OutOfMemory>
    requires { IfOk parts (λ p. items_nesting (members_of p).1 ≤ 118) }
    ensures { (ms : TemplateMembers) → AreParts (all_grown ms ([], [])) parts → AreFields ms result }
{
    match parts {
        Ok(parts) => with_loops(alloc, parts.own, parts.loops),
        Err(error) => Err(error),
    }
}

/// The object of members.
pub(crate) fn object_of(
    alloc: Global,
    parts: Result<Parts, OutOfMemory>,
) -> Result<Value, OutOfMemory>
    requires { IfOk parts (λ p. items_nesting (members_of p).1 ≤ 118) }
    ensures { (ms : TemplateMembers) → AreParts (all_grown ms ([], [])) parts → IsTree (t.object ms) result }
{
    match fields_of(alloc, parts) {
        Ok(whole) => Ok(Value::Object(whole)),
        Err(error) => Err(error),
    }
}
