// What parameters are bound to.

use crate::fixtures::{UNBOUNDED, compare, parameter, template_with, value_of};
use arm_value::ListOf;
use std::alloc::Global;
use std::test::Fail;
use template_parameters::{bind, read_given};
use template_parts::{
    BindFault, Bound, BoundParameter, BoundValue, Bounds, Given, Parameter, ValueType,
};
use template_tree::Template;

const NAME_BOUNDS: Bounds = Bounds {
    min_value: None,
    max_value: None,
    min_length: Some(2),
    max_length: Some(4),
};

const SIZE_BOUNDS: Bounds = Bounds {
    min_value: Some(-1),
    max_value: Some(3),
    min_length: None,
    max_length: None,
};

// Parameters that have no default.
fn asked_for(alloc: Global, all: &mut ListOf<Parameter>) -> Result<(), Fail> {
    all.push(parameter(alloc, "name", ValueType::String, ("", ""), NAME_BOUNDS)?)?;
    Ok(())
}

// Parameters that have a default.
fn with_defaults(alloc: Global, all: &mut ListOf<Parameter>) -> Result<(), Fail> {
    let lists = ("[]", "[1,2]");
    all.push(parameter(alloc, "size", ValueType::Int, ("2", ""), SIZE_BOUNDS)?)?;
    all.push(parameter(alloc, "list", ValueType::Array, lists, NAME_BOUNDS_OF_LISTS)?)?;
    all.push(parameter(
        alloc,
        "tags",
        ValueType::SecureObject,
        ("{}", ""),
        UNBOUNDED,
    )?)?;
    Ok(())
}

const NAME_BOUNDS_OF_LISTS: Bounds = Bounds {
    min_value: Some(9),
    max_value: None,
    min_length: None,
    max_length: Some(2),
};

fn example(alloc: Global) -> Result<Template, Fail> {
    let mut all = ListOf::new(alloc);
    asked_for(alloc, &mut all)?;
    with_defaults(alloc, &mut all)?;
    template_with(alloc, all)
}

fn given_by(alloc: Global, text: &str) -> Result<Given, Fail> {
    match read_given(alloc, &value_of(alloc, text)?) {
        Ok(given) => Ok(given),
        Err(_) => Err(Fail::new(format_args!("{text} gives nothing"))),
    }
}

// The name of a parameter with the compact text of what it is bound to.
fn compare_one(
    alloc: Global,
    asked: &str,
    found: &BoundParameter,
    wanted: &str,
) -> Result<(), Fail> {
    let (mark, value) = match &found.value {
        BoundValue::Known(value) => ("=", value),
        BoundValue::Default(value) => (" from ", value),
    };
    let bytes = value.to_json(alloc)?;
    let text = str::from_utf8(bytes.as_slice()).unwrap_or("no text");
    let name = found.name.as_str();
    let found = format!(in alloc; "{name}{mark}{text}")?;
    compare(asked, found.as_str(), wanted)
}

fn compare_fault(alloc: Global, asked: &str, fault: &BindFault, wanted: &str) -> Result<(), Fail> {
    let found = format!(in alloc; "{fault}")?;
    compare(asked, found.as_str(), wanted)
}

// Compares the last parameter that is bound, or the fault.
fn compare_bound(
    alloc: Global,
    asked: &str,
    found: &Result<Bound, BindFault>,
    wanted: &str,
) -> Result<(), Fail> {
    match found {
        Err(fault) => compare_fault(alloc, asked, fault, wanted),
        Ok(bound) => match bound.as_slice().first() {
            Some(one) => compare_one(alloc, asked, one, wanted),
            None => compare(asked, "nothing", wanted),
        },
    }
}

const BINDINGS: &str = r#"{"name":{"value":"ab"}} -> name="ab"
{"NAME":{"value":"[x]"}} -> name="[x]"
{"name":{"value":"ab"},"x":{"value":1}} -> ExtraParameter x
{"x":{"value":1}} -> ExtraParameter x
{"size":{"value":1}} -> MissingParameter name
{} -> MissingParameter name
{"name":{"value":7}} -> WrongType name
{"name":{"value":null}} -> WrongType name
{"name":{"value":"a"}} -> OutOfBounds name
{"name":{"value":"abcde"}} -> OutOfBounds name
{"name":{"value":"ab"},"size":{"value":4}} -> OutOfBounds size
{"name":{"value":"ab"},"size":{"value":-2}} -> OutOfBounds size
{"name":{"value":"ab"},"size":{"value":-1}} -> name="ab"
{"name":{"value":"ab"},"size":{"value":"1"}} -> WrongType size
{"name":{"value":"a"},"size":{"value":"1"}} -> WrongType size
{"name":{"value":"ab"},"list":{"value":[3]}} -> NotAllowed list
{"name":{"value":"a"},"list":{"value":[3]}} -> NotAllowed list
{"name":{"value":"ab"},"list":{"value":[1,2,1]}} -> OutOfBounds list
{"name":{"value":"ab"},"list":{"value":[2,1]}} -> name="ab"
{"name":{"value":"ab"},"tags":{"value":[]}} -> WrongType tags
{"name":{"value":"éé"}} -> name="éé""#;

fn check_binding(
    alloc: Global,
    template: &Template,
    asked: &str,
    wanted: &str,
) -> Result<(), Fail> {
    let given = given_by(alloc, asked)?;
    compare_bound(alloc, asked, &bind(alloc, template, &given), wanted)
}

#[test]
fn values_are_bound_or_refused(rt: HostRuntime) -> Result<(), Fail> {
    let template = example(rt.alloc())?;
    for line in BINDINGS.lines() {
        let (asked, wanted) = line.split_once(" -> ").unwrap_or((line, "a wanted answer"));
        check_binding(rt.alloc(), &template, asked, wanted)?;
    }
    Ok(())
}

// A default, and what a parameter of the type is bound to by it.
const DEFAULTS: &str = r#""a" -> p="a"
"[[a]" -> p="[a]"
"[concat('a')]" -> p from "[concat('a')]"
"[a" -> p="[a"
7 -> WrongType p"#;

fn check_default(alloc: Global, asked: &str, wanted: &str) -> Result<(), Fail> {
    let mut all = ListOf::new(alloc);
    all.push(parameter(alloc, "p", ValueType::SecureString, (asked, ""), UNBOUNDED)?)?;
    let template = template_with(alloc, all)?;
    compare_bound(
        alloc,
        asked,
        &bind(alloc, &template, &Given::new(alloc)),
        wanted,
    )
}

#[test]
fn defaults_are_bound_by_their_values(rt: HostRuntime) -> Result<(), Fail> {
    for line in DEFAULTS.lines() {
        let (asked, wanted) = line.split_once(" -> ").unwrap_or((line, "a wanted answer"));
        check_default(rt.alloc(), asked, wanted)?;
    }
    Ok(())
}
