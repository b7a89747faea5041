// The value of a JSON tree with expressions and loops in it.
ghost use Rattle.std.specs.Prelude.{◌≡◌, ◌≤◌, map, option_map, IfOk, MatchOption};
ghost use Rattle.arm_value.specs.Json.{nesting, members_nesting, array, object, row, pairs};
ghost use Rattle.arm_value.specs.View.{json, member};
ghost use Rattle.arm_expr.specs.Brackets.{meaning};
ghost use Rattle.arm_eval.specs.Trees as trees;
ghost use Rattle.arm_eval.specs.Trees.{counting};
ghost use Rattle.arm_eval.specs.Words.{copying_of, values_of, owns_of, copies_of, own_of, put_all};
ghost use Rattle.reading.specs.Knowledge.{told};
ghost use Rattle.arm_env.specs.Answer.{outcome_told, gathered, Gives};
ghost use Rattle.arm_env.specs.Sight.{here};
ghost use Rattle.arm_expr.specs.View.{tree_of};
ghost use Rattle.expression_values.specs.Meaning.{value};

use crate::copying::{
    Copying, copy_of, copy_tree, is_copy, loops_named, taken_count, trees_in, turn_to,
};
use crate::texts::expression_of;
use crate::whole::{
    Own, all_given, array_of, field_of, whole_object, with_given, with_own, with_value,
};
use arm_env::entries::{Around, Entries};
use arm_env::stop;
use arm_env::stop::{Stop, let_go, stopped};
use arm_expr::{Expr, Meaning, meaning_of};
use arm_value::{Field, Fields, Items, Text, Value};
use expression_values::value_of;
use std::alloc::Global;

// The value of an expression, which is dropped.
fn taken_value<'a, K: Entries>(
    alloc: Global,
    entries: &'a K,
    around: &Around,
    e: Expr,
) -> Result<Value, Stop>
    ensures { Gives json result
        (told (K.known entries.now) (value (here around.now) (tree_of e))) }
{
    let value = value_of(alloc, entries, around, &e);
    let_go(e);
    value
}

/// The value of a text.
pub(crate) fn said_value<'a, K: Entries>(
    alloc: Global,
    entries: &'a K,
    around: &Around,
    text: &Text,
) -> Result<Value, Stop>
    ensures { Gives json result (told (K.known entries.now)
        (trees.said_value (here around.now) text.now (meaning text.now))) }
{
    match meaning_of(text.as_str()) {
        Meaning::Plain(plain) => Ok(Value::Text(Text::of(alloc, plain)?)),
        Meaning::Expression => match expression_of(alloc, text)? {
            Some(e) => taken_value(alloc, entries, around, e),
            None => Err(Stop::NoValue),
        },
    }
}

/// The value of a JSON tree with expressions and loops in it, by what is known of the cells that it
/// looks at, or why there is none: a `Stop` says that it has no value, or which cell is looked at
/// first of what is not known yet. It recurses as deep as the tree nests.
///
/// A text in brackets is an expression; one that spells none, or that is beyond the limits of
/// expressions, has no value. After `[[` it is plain, without its first `[`. The member of exactly
/// the name `copy` of an object is an array of loops, each an object of a name, a count from 0 to
/// 800 and an input (these three words in letters of any case), and gives the object an array under
/// each name. A `copy` of another form, and a name that the object has already or that comes twice,
/// give no value.
#[cycle(tree)]
pub fn tree_value<'a, K: Entries>(
    alloc: Global,
    entries: &'a K,
    around: &Around,
    tree: &Value,
) -> Result<Value, Stop>
    ensures { Gives json result (told (K.known entries.now)
        (trees.tree_value (json tree.now) (here around.now))) }
{
    match tree {
        Value::Null => Ok(Value::Null),
        Value::Bool(truth) => Ok(Value::Bool(*truth)),
        Value::Int(number) => Ok(Value::Int(*number)),
        Value::Text(text) => said_value(alloc, entries, around, text),
        Value::Array(items) => array_value(alloc, entries, around, items),
        Value::Object(fields) => object_value(alloc, entries, around, fields),
    }
}

// The value of a tree, or that it has none.
#[cycle(tree)]
fn outcome<'a, K: Entries>(
    alloc: Global,
    entries: &'a K,
    around: &Around,
    tree: &Value,
) -> Result<Option<Value>, Stop>
    ensures value { Gives (option_map json) result (outcome_told (told (K.known entries.now)
        (trees.tree_value (json tree.now) (here around.now)))) }
    ensures nests { IfOk result (λ o. MatchOption o (Unit {0}) (λ v. nesting (json v) ≤ 100)) }
{
    stop::outcome(tree_value(alloc, entries, around, tree))
}

// The values of trees, where each has one. All are looked at.
#[cycle(tree)]
fn values<'a, K: Entries>(
    alloc: Global,
    entries: &'a K,
    around: &Around,
    trees: &[Value],
) -> Result<Option<Items>, Stop>
    ensures { Gives (λ o. o) result (outcome_told
        (gathered (λ vs. vs) (K.known entries.now) (values_of (here around.now) trees.now))) }
{
    let mut values = Some(Items::new());
    for tree in trees {
        match outcome(alloc, entries, around, tree) {
            Ok(value) => values = with_value(alloc, values, value)?,
            Err(stop) => return stopped(stop, values),
        }
    }
    Ok(values)
}

#[cycle(tree)]
fn array_value<'a, K: Entries>(
    alloc: Global,
    entries: &'a K,
    around: &Around,
    items: &Items,
) -> Result<Value, Stop>
    ensures { Gives json result (told (K.known entries.now)
        (trees.tree_value (array (row items.now)) (here around.now))) }
{
    let values = values(alloc, entries, around, items.as_slice())?;
    array_of(values)
}

// What an object has of its own by a member, or that this has no value.
#[cycle(tree)]
fn own_member<'a, K: Entries>(
    alloc: Global,
    entries: &'a K,
    around: &Around,
    field: &Field,
) -> Result<Option<Own>, Stop>
    ensures value { Gives (option_map (own_of field.now.name)) result (outcome_told
        (told (K.known entries.now) (trees.own_member field.now.name
        (trees.tree_value (json field.now.value) (here around.now))))) }
    ensures nests { IfOk result (λ o. MatchOption o (Unit {0})
        (λ o. members_nesting (own_of field.now.name o) ≤ 100)) }
{
    if is_copy(&field.name) {
        return Ok(Some(Own::Nothing));
    }
    match outcome(alloc, entries, around, &field.value)? {
        Some(value) => Ok(Some(Own::Value(value))),
        None => Ok(None),
    }
}

// The members but `copy`, put in their order, where each has a value. All are looked at.
#[cycle(tree)]
fn own_members<'a, K: Entries>(
    alloc: Global,
    entries: &'a K,
    around: &Around,
    fields: &[Field],
) -> Result<Option<Fields>, Stop>
    ensures { Gives (λ o. o) result (outcome_told
        (gathered put_all (K.known entries.now) (owns_of (here around.now) fields.now))) }
{
    let mut own = Some(Fields::new());
    for field in fields {
        match own_member(alloc, entries, around, field) {
            Ok(found) => own = with_own(alloc, own, &field.name, found)?,
            Err(stop) => return stopped(stop, own),
        }
    }
    Ok(own)
}

// The members that `copy` gives.
#[cycle(tree)]
fn given_members<'a, K: Entries>(
    alloc: Global,
    entries: &'a K,
    around: &Around,
    fields: &[Field],
) -> Result<Vec<Field>, Stop>
    ensures { Gives (λ v. map member v.items) result (told (K.known entries.now)
        (trees.given_members (pairs (map member fields.now)) (here around.now))) }
{
    match copy_tree(fields) {
        Some(tree) => copies(alloc, entries, around, tree),
        None => Ok(Vec::new(alloc)),
    }
}

// The members that each loop of an array gives.
#[cycle(tree)]
fn copies<'a, K: Entries>(
    alloc: Global,
    entries: &'a K,
    around: &Around,
    tree: &Value,
) -> Result<Vec<Field>, Stop>
    ensures { Gives (λ v. map member v.items) result (told (K.known entries.now)
        (trees.copies (json tree.now) (here around.now))) }
{
    match trees_in(tree) {
        Some(trees) => {
            let given = each_copied(alloc, entries, around, trees)?;
            all_given(given)
        }
        None => Err(Stop::NoValue),
    }
}

// The members that loops give, where each has a value. All are looked at.
#[cycle(tree)]
fn each_copied<'a, K: Entries>(
    alloc: Global,
    entries: &'a K,
    around: &Around,
    trees: &[Value],
) -> Result<Option<Vec<Field>>, Stop>
    ensures { Gives (option_map (λ v. map member v.items)) result (outcome_told
        (gathered (λ ms. ms) (K.known entries.now) (copies_of (here around.now) trees.now))) }
{
    let mut given = Some(Vec::new(alloc));
    for tree in trees {
        match copied_outcome(alloc, entries, around, tree) {
            Ok(field) => given = with_given(given, field)?,
            Err(stop) => return stopped(stop, given),
        }
    }
    Ok(given)
}

// The member that a loop gives, or that it has no value.
#[cycle(tree)]
fn copied_outcome<'a, K: Entries>(
    alloc: Global,
    entries: &'a K,
    around: &Around,
    tree: &Value,
) -> Result<Option<Field>, Stop>
    ensures { Gives (option_map member) result (outcome_told (told (K.known entries.now)
        (trees.copied (here around.now) (trees.copy_in (json tree.now))))) }
{
    stop::outcome(copied(alloc, entries, around, tree))
}

// The member that a loop gives.
#[cycle(tree)]
fn copied<'a, K: Entries>(
    alloc: Global,
    entries: &'a K,
    around: &Around,
    tree: &Value,
) -> Result<Field, Stop>
    ensures { Gives member result (told (K.known entries.now)
        (trees.copied (here around.now) (trees.copy_in (json tree.now)))) }
{
    match copy_of(tree) {
        Some(copy) => {
            let count = counting(alloc, entries, around, copy.count)?;
            let values = turns(alloc, entries, around, &copy, count)?;
            field_of(alloc, copy.name, values)
        }
        None => Err(Stop::NoValue),
    }
}

/// The count of a loop, from 0 to 800, which is the value of a tree. Any other value counts as none.
#[cycle(tree)]
pub fn counting<'a, K: Entries>(
    alloc: Global,
    entries: &'a K,
    around: &Around,
    tree: &Value,
) -> Result<u32, Stop>
    ensures { Gives (λ n. n) result (told (K.known entries.now)
        (counting (trees.tree_value (json tree.now) (here around.now)))) }
{
    let value = tree_value(alloc, entries, around, tree)?;
    match taken_count(value) {
        Some(count) => Ok(count),
        None => Err(Stop::NoValue),
    }
}

/// The values of a loop's input at each index below the count, where each has one. All are looked
/// at.
#[cycle(tree)]
pub(crate) fn turns<'a, K: Entries>(
    alloc: Global,
    entries: &'a K,
    around: &Around,
    copy: &Copying,
    count: u32,
) -> Result<Option<Items>, Stop>
    ensures { Gives (λ o. o) result (outcome_told (gathered (λ vs. vs) (K.known entries.now)
        (trees.turns (copying_of copy.now) (here around.now) 0 count))) }
{
    let mut loops = loops_named(alloc, around.loops, copy.name)?;
    let mut values = Some(Items::new());
    for index in 0..count {
        turn_to(&mut loops, index);
        let inside = Around {
            loops: loops.as_slice(),
            place: around.place,
        };
        match outcome(alloc, entries, &inside, copy.input) {
            Ok(value) => values = with_value(alloc, values, value)?,
            Err(stop) => return stopped(stop, (loops, values)),
        }
    }
    let_go(loops);
    Ok(values)
}

#[cycle(tree)]
fn object_value<'a, K: Entries>(
    alloc: Global,
    entries: &'a K,
    around: &Around,
    fields: &Fields,
) -> Result<Value, Stop>
    ensures { Gives json result (told (K.known entries.now)
        (trees.tree_value (object (pairs fields.now)) (here around.now))) }
{
    let fields = fields.as_slice();
    let own = own_members(alloc, entries, around, fields)?;
    match given_members(alloc, entries, around, fields) {
        Ok(given) => whole_object(alloc, fields, own, given),
        Err(stop) => stopped(stop, own),
    }
}
