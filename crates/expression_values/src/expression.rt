// The value of an expression.
ghost use Rattle.std.specs.Prelude.{◌≡◌, ◌++◌, ◌∷◌, [], Some, None, Ok, map, option_map, IfOk};
ghost use Rattle.std.specs.Prelude.{if◌then◌else◌};
ghost use Rattle.arm_value.specs.Json.{Json, text};
ghost use Rattle.arm_functions.specs.Kinds.{truth_of};
ghost use Rattle.arm_value.specs.View.{json};
ghost use Rattle.arm_expr.specs.Tree as tree;
ghost use Rattle.arm_expr.specs.View.{tree_of};
ghost use Rattle.arm_env.specs.Look.{all};
ghost use Rattle.expression_values.specs.Row.{is_null, if_row, all_true, and_row, one_true, or_row};
ghost use Rattle.expression_values.specs.Row.{first_there, coalesce_row, lazy_row};
ghost use Rattle.expression_values.specs.Meaning as meaning;
ghost use Rattle.expression_values.specs.Meaning.{called};
ghost use Rattle.arm_env.specs.Knowledge.{told, finished};
ghost use Rattle.arm_env.specs.Answer.{outcome_told, plain_told, with_last, Gives};
ghost use Rattle.arm_env.specs.Sight.{here, held_of};
ghost use Rattle.expression_values.specs.Args.{all_json, outs};

use crate::access::{indexed, member, used};
use crate::strict::strict_call;
use arm_env::entries::{Around, Entries};
use arm_env::function::{Lazy, lazy_named};
use arm_env::held::{Held, own};
use arm_env::stop;
use arm_env::stop::{Stop, lacks_memory, let_go, stopped};
use arm_expr::Expr;
use arm_functions::truth_of;
use arm_value::{OutOfMemory, Text, Value};
use std::alloc::Global;

/// The value of an expression, by what is known of the cells that it looks at, or why there is none:
/// a `Stop` says that it has no value, or which cell is looked at first of what is not known yet. It
/// recurses as deep as the expression nests.
#[cycle(eval)]
#[tactic(auto, using(crate::proofs::Answers::answers))]
pub fn value_of<'a, K: Entries>(
    alloc: Global,
    entries: &'a K,
    around: &Around,
    e: &Expr,
) -> Result<Value, Stop>
    ensures { Gives json result
        (told (K.known entries.now) (meaning.value (here around.now) (tree_of e.now))) }
{
    let held = held(alloc, entries, around, e)?;
    used(alloc, entries, held)
}

// The value of an expression, or that it has none.
#[cycle(eval)]
fn outcome<'a, K: Entries>(
    alloc: Global,
    entries: &'a K,
    around: &Around,
    e: &Expr,
) -> Result<Option<Value>, Stop>
    ensures { Gives (option_map json) result (outcome_told
        (told (K.known entries.now) (meaning.value (here around.now) (tree_of e.now)))) }
{
    stop::outcome(value_of(alloc, entries, around, e))
}

// What an expression gives to an access to a part of it, or that it has no value.
#[cycle(eval)]
fn held_outcome<'a, K: Entries>(
    alloc: Global,
    entries: &'a K,
    around: &Around,
    e: &Expr,
) -> Result<Option<Held<'a>>, Stop>
    ensures { Gives (option_map held_of) result (outcome_told
        (told (K.known entries.now) (meaning.held (here around.now) (tree_of e.now)))) }
{
    stop::outcome(held(alloc, entries, around, e))
}

// A text, for an access to a part of it.
#[tactic(auto, using(crate::proofs::Answers::answers))]
fn held_text<'a>(alloc: Global, literal: &Text) -> Result<Held<'a>, Stop>
    ensures { Gives held_of result (plain_told (Some (text literal.now))) }
{
    own(Some(Value::Text(literal.copy(alloc)?)))
}

// What an expression gives to an access to a part of it.
#[cycle(eval)]
#[tactic(auto, using(crate::proofs::Answers::answers, crate::proofs::EvalLemmas::meanings))]
fn held<'a, K: Entries>(
    alloc: Global,
    entries: &'a K,
    around: &Around,
    e: &Expr,
) -> Result<Held<'a>, Stop>
    ensures { Gives held_of result
        (told (K.known entries.now) (meaning.held (here around.now) (tree_of e.now))) }
{
    match e {
        Expr::Text(text) => held_text(alloc, text),
        Expr::Int(number) => own(Some(Value::Int(*number))),
        Expr::Call(name, args) => called(alloc, entries, around, name, args),
        Expr::Member(base, name) => {
            let base = held(alloc, entries, around, base)?;
            member(alloc, entries, base, name)
        }
        Expr::Index(base, index) => {
            let base = held_outcome(alloc, entries, around, base)?;
            match outcome(alloc, entries, around, index) {
                Ok(index) => indexed(alloc, entries, base, index),
                Err(stop) => stopped(stop, base),
            }
        }
    }
}

// The call of a function by its name.
#[cycle(eval)]
#[tactic(auto, using(crate::proofs::Answers::answers), unfolding(crate::specs::Meaning::called))]
fn called<'a, K: Entries>(
    alloc: Global,
    entries: &'a K,
    around: &Around,
    name: &Text,
    args: &[Expr],
) -> Result<Held<'a>, Stop>
    ensures { Gives held_of result (told (K.known entries.now)
        (called (here around.now) name.now (outs (here around.now) args.now))) }
{
    match lazy_named(name) {
        Some(function) => own(Some(lazy_value(alloc, entries, around, function, args)?)),
        None => {
            let values = all_values(alloc, entries, around, args)?;
            let held = strict_call(alloc, entries, around, name, values.as_slice());
            let_go(values);
            held
        }
    }
}

#[cycle(eval)]
fn lazy_value<'a, K: Entries>(
    alloc: Global,
    entries: &'a K,
    around: &Around,
    function: Lazy,
    args: &[Expr],
) -> Result<Value, Stop>
    ensures { Gives json result (told (K.known entries.now)
        (lazy_row function (outs (here around.now) args.now))) }
{
    match function {
        Lazy::If => if_value(alloc, entries, around, args),
        Lazy::And => and_value(alloc, entries, around, args),
        Lazy::Or => or_value(alloc, entries, around, args),
        Lazy::Coalesce => coalesce_value(alloc, entries, around, args),
    }
}

#[cycle(eval)]
#[tactic(auto, using(crate::proofs::Answers::answers))]
fn if_value<'a, K: Entries>(
    alloc: Global,
    entries: &'a K,
    around: &Around,
    args: &[Expr],
) -> Result<Value, Stop>
    ensures { Gives json result (told (K.known entries.now)
        (if_row (outs (here around.now) args.now))) }
{
    let [condition, yes, no] = args else {
        return Err(Stop::NoValue);
    };
    let value = value_of(alloc, entries, around, condition)?;
    match truth(value) {
        Some(true) => value_of(alloc, entries, around, yes),
        Some(false) => value_of(alloc, entries, around, no),
        None => Err(Stop::NoValue),
    }
}

#[cycle(eval)]
#[tactic(auto, using(crate::proofs::Answers::answers))]
fn and_value<'a, K: Entries>(
    alloc: Global,
    entries: &'a K,
    around: &Around,
    args: &[Expr],
) -> Result<Value, Stop>
    ensures { Gives json result (told (K.known entries.now)
        (and_row (outs (here around.now) args.now))) }
{
    if args.len() < 2 {
        return Err(Stop::NoValue);
    }
    all_true(alloc, entries, around, args)
}

#[cycle(eval)]
#[tactic(auto, using(crate::proofs::Answers::answers))]
fn all_true<'a, K: Entries>(
    alloc: Global,
    entries: &'a K,
    around: &Around,
    args: &[Expr],
) -> Result<Value, Stop>
    ensures { Gives json result (told (K.known entries.now)
        (all_true (outs (here around.now) args.now))) }
{
    for arg in args {
        let value = value_of(alloc, entries, around, arg)?;
        match truth(value) {
            Some(true) => {}
            Some(false) => return Ok(Value::Bool(false)),
            None => return Err(Stop::NoValue),
        }
    }
    Ok(Value::Bool(true))
}

#[cycle(eval)]
#[tactic(auto, using(crate::proofs::Answers::answers))]
fn or_value<'a, K: Entries>(
    alloc: Global,
    entries: &'a K,
    around: &Around,
    args: &[Expr],
) -> Result<Value, Stop>
    ensures { Gives json result (told (K.known entries.now)
        (or_row (outs (here around.now) args.now))) }
{
    if args.len() < 2 {
        return Err(Stop::NoValue);
    }
    one_true(alloc, entries, around, args)
}

#[cycle(eval)]
#[tactic(auto, using(crate::proofs::Answers::answers))]
fn one_true<'a, K: Entries>(
    alloc: Global,
    entries: &'a K,
    around: &Around,
    args: &[Expr],
) -> Result<Value, Stop>
    ensures { Gives json result (told (K.known entries.now)
        (one_true (outs (here around.now) args.now))) }
{
    for arg in args {
        let value = value_of(alloc, entries, around, arg)?;
        match truth(value) {
            Some(true) => return Ok(Value::Bool(true)),
            Some(false) => {}
            None => return Err(Stop::NoValue),
        }
    }
    Ok(Value::Bool(false))
}

#[cycle(eval)]
#[tactic(auto, using(crate::proofs::Answers::answers))]
fn coalesce_value<'a, K: Entries>(
    alloc: Global,
    entries: &'a K,
    around: &Around,
    args: &[Expr],
) -> Result<Value, Stop>
    ensures { Gives json result (told (K.known entries.now)
        (coalesce_row (outs (here around.now) args.now))) }
{
    if args.len() < 1 {
        return Err(Stop::NoValue);
    }
    first_there(alloc, entries, around, args)
}

#[cycle(eval)]
#[tactic(auto, using(crate::proofs::Answers::answers))]
fn first_there<'a, K: Entries>(
    alloc: Global,
    entries: &'a K,
    around: &Around,
    args: &[Expr],
) -> Result<Value, Stop>
    ensures { Gives json result (told (K.known entries.now)
        (first_there (outs (here around.now) args.now))) }
{
    for arg in args {
        let value = value_of(alloc, entries, around, arg)?;
        match unless_null(value) {
            Some(value) => return Ok(value),
            None => {}
        }
    }
    Ok(Value::Null)
}

// The values of all arguments, all of which are looked at.
#[cycle(eval)]
fn all_values<'a, K: Entries>(
    alloc: Global,
    entries: &'a K,
    around: &Around,
    args: &[Expr],
) -> Result<Vec<Value>, Stop>
    ensures { Gives all_json result (told (K.known entries.now)
        (all (outs (here around.now) args.now))) }
{
    let mut values = Some(Vec::new(alloc));
    for arg in args {
        match outcome(alloc, entries, around, arg) {
            Ok(value) => values = with_value(values, value)?,
            Err(stop) => return stopped(stop, values),
        }
    }
    if_all(values)
}

// The values with one more at their end, where all are there.
fn with_value(
    values: Option<Vec<Value>>,
    value: Option<Value>,
) -> Result<Option<Vec<Value>>, OutOfMemory>
    ensures { IfOk result (λ all. option_map all_json all
        ≡ with_last (option_map all_json values) (option_map json value)) }
{
    match values {
        Some(values) => match value {
            Some(value) => push_value(values, value),
            None => nothing(values),
        },
        None => nothing(value),
    }
}

fn push_value(values: Vec<Value>, value: Value) -> Result<Option<Vec<Value>>, OutOfMemory>
    ensures { IfOk result (λ all. option_map all_json all
        ≡ Some (all_json values ++ json value ∷ [])) }
{
    let mut values = values;
    match values.push(value) {
        Ok(()) => Ok(Some(values)),
        Err(fault) => lacks_memory((fault, values)),
    }
}

// No values; the part is dropped.
fn nothing<T: Drop>(_part: T) -> Result<Option<Vec<Value>>, OutOfMemory>
    ensures { result ≡ Ok None }
{
    Ok(None)
}

// The values, where all are there.
fn if_all(values: Option<Vec<Value>>) -> Result<Vec<Value>, Stop>
    ensures { Gives all_json result (finished (option_map all_json values)) }
{
    match values {
        Some(values) => Ok(values),
        None => Err(Stop::NoValue),
    }
}

// Which truth value the value is, if any. The value is dropped.
fn truth(value: Value) -> Option<bool>
    ensures { result ≡ truth_of (json value) }
{
    let truth = truth_of(&value);
    let_go(value);
    truth
}

// The value, unless it is null.
fn unless_null(value: Value) -> Option<Value>
    ensures { option_map json result ≡ (if is_null (json value) then None else Some (json value)) }
{
    if is_null(&value) {
        let_go(value);
        None
    } else {
        Some(value)
    }
}

fn is_null(value: &Value) -> bool
    ensures { result ≡ is_null (json value.now) }
{
    match value {
        Value::Null => true,
        _ => false,
    }
}
