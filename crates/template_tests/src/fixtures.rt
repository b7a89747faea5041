// Values and parameters that tests are about, and how answers are compared.

use arm_value::{Items, ListOf, Text, Value};
use std::alloc::Global;
use std::test::Fail;
use template_parts::{Bounds, Form, Parameter, ValueType};
use template_tree::{Resources, Template};

/// No bounds.
pub const UNBOUNDED: Bounds = Bounds {
    min_value: None,
    max_value: None,
    min_length: None,
    max_length: None,
};

/// Fails where another text is found than wanted, with the question.
pub fn compare(asked: &str, found: &str, wanted: &str) -> Result<(), Fail> {
    if found == wanted {
        return Ok(());
    }
    Err(Fail::new(format_args!("{asked} -> {wanted} but {found}")))
}

/// The value of a JSON text.
pub fn value_of(alloc: Global, text: &str) -> Result<Value, Fail> {
    match Value::from_json(alloc, text.as_bytes()) {
        Ok(value) => Ok(value),
        Err(_) => Err(Fail::new(format_args!("{text} states no value"))),
    }
}

// The value of a JSON text; none of an empty one.
fn some_value(alloc: Global, text: &str) -> Result<Option<Value>, Fail> {
    if text.is_empty() {
        return Ok(None);
    }
    Ok(Some(value_of(alloc, text)?))
}

// No items; the value is dropped.
fn no_items<T: Drop>(_value: T, text: &str) -> Result<Option<Items>, Fail> {
    Err(Fail::new(format_args!("{text} is no array")))
}

// The items of a JSON text; none of an empty one.
fn some_items(alloc: Global, text: &str) -> Result<Option<Items>, Fail> {
    if text.is_empty() {
        return Ok(None);
    }
    match value_of(alloc, text)? {
        Value::Array(items) => Ok(Some(items)),
        other => no_items(other, text),
    }
}

/// The parameter of this name and type, with a default and allowed values where these are not empty.
pub fn parameter(
    alloc: Global,
    name: &str,
    kind: ValueType,
    texts: (&str, &str),
    bounds: Bounds,
) -> Result<Parameter, Fail> {
    let default_value = some_value(alloc, texts.0)?;
    let allowed_values = some_items(alloc, texts.1)?;
    Ok(Parameter {
        name: Text::of(alloc, name)?,
        kind,
        default_value,
        allowed_values,
        bounds,
        metadata: None,
    })
}

/// A template with these parameters and nothing else.
pub fn template_with(alloc: Global, parameters: ListOf<Parameter>) -> Result<Template, Fail> {
    Ok(Template {
        form: Form::One,
        schema: Text::of(alloc, "deploymentTemplate.json")?,
        content_version: Text::of(alloc, "1.0.0.0")?,
        parameters,
        variables: ListOf::new(alloc),
        outputs: ListOf::new(alloc),
        resources: Resources::new(alloc),
    })
}
