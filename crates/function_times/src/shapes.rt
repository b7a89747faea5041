// The arguments of the calls that are timed, by their shapes and a size n.

use arm_value::{Text, Value};
use std::alloc::{AllocError, Global};

/// An argument of a call.
#[derive(Clone, Copy)]
pub enum Shape {
    /// No argument: the items of the array that follows are the arguments.
    Each,
    /// The number n.
    Count,
    /// The number n / 2.
    Half,
    /// The first text, the second text n times, and the third.
    Text(&'static str, &'static str, &'static str),
    /// The same with n / 2 times.
    HalfText(&'static str, &'static str, &'static str),
    /// An array of n numbers, counted from this many times n.
    Numbers(u64),
    /// The JSON text of an array of n numbers.
    NumbersText,
    /// An array of n texts.
    Texts,
    /// An array of n arrays of one number.
    Rows,
    /// An object with n members, whose names are counted from this many times n / 2.
    Members(u64),
    /// Names and values in turn, n of each, as an array.
    Pairs,
}

// The front, the text so many times, and the back.
fn repeated(
    alloc: Global,
    front: &str,
    text: &str,
    times: u64,
    back: &str,
) -> Result<Value, AllocError> {
    let mut all = String::from_str(alloc, front)?;
    for _ in 0..times {
        all.push_str(text)?;
    }
    all.push_str(back)?;
    Ok(Value::Text(Text::from_string(all)))
}

// The JSON text of n items between the brackets, each a number between the two texts.
fn listed(
    alloc: Global,
    brackets: (&str, &str),
    item: (&str, &str),
    from: u64,
    n: u64,
) -> Result<String, AllocError> {
    let mut all = String::from_str(alloc, brackets.0)?;
    for i in 0..n {
        if i > 0 {
            all.push_str(",")?;
        }
        let number = from.saturating_add(i);
        write!(all, "{}{number}{}", item.0, item.1)?;
    }
    all.push_str(brackets.1)?;
    Ok(all)
}

// The value of a JSON text; null where it has none.
fn value_of(alloc: Global, json: &str) -> Value {
    match Value::from_json(alloc, json.as_bytes()) {
        Ok(value) => value,
        Err(_fault) => Value::Null,
    }
}

fn array(alloc: Global, item: (&str, &str), from: u64, n: u64) -> Result<Value, AllocError> {
    let json = listed(alloc, ("[", "]"), item, from, n)?;
    Ok(value_of(alloc, &json))
}

fn object(alloc: Global, from: u64, n: u64) -> Result<Value, AllocError> {
    let json = listed(alloc, ("{", "}"), ("\"name", "\":{\"value\":1}"), from, n)?;
    Ok(value_of(alloc, &json))
}

fn number(n: u64) -> Value {
    Value::Int(i64::try_from(n).unwrap_or(0))
}

/// The argument of this shape and size.
pub fn argument(alloc: Global, shape: Shape, n: u64) -> Result<Value, AllocError> {
    match shape {
        Shape::Each => Ok(Value::Null),
        Shape::Count => Ok(number(n)),
        Shape::Half => Ok(number(n / 2)),
        Shape::Text(front, text, back) => repeated(alloc, front, text, n, back),
        Shape::HalfText(front, text, back) => repeated(alloc, front, text, n / 2, back),
        Shape::Numbers(k) => array(alloc, ("", ""), k.saturating_mul(n), n),
        Shape::NumbersText => {
            let json = listed(alloc, ("[", "]"), ("", ""), 0, n)?;
            Ok(Value::Text(Text::from_string(json)))
        }
        Shape::Texts => array(alloc, ("\"a", "\""), 0, n),
        Shape::Rows => array(alloc, ("[", "]"), 0, n),
        Shape::Members(k) => object(alloc, k.saturating_mul(n / 2), n),
        Shape::Pairs => array(alloc, ("\"a", "\",1"), 0, n),
    }
}
