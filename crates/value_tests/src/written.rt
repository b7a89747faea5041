// Values as texts.

use arm_value::Value;
use std::alloc::{AllocError, Global};

/// The bytes as a text.
pub fn text_of(bytes: &[u8]) -> &str {
    match str::from_utf8(bytes) {
        Ok(text) => text,
        Err(_) => "no text",
    }
}

/// Adds the compact text of the value.
pub fn say_json(out: &mut String, alloc: Global, value: &Value) -> Result<(), AllocError> {
    let bytes = value.to_json(alloc)?;
    out.push_str(text_of(bytes.as_slice()))
}

/// Adds the compact text of the value, or `none`.
pub fn say_maybe(out: &mut String, alloc: Global, value: Option<&Value>) -> Result<(), AllocError> {
    match value {
        Some(value) => say_json(out, alloc, value),
        None => out.push_str("none"),
    }
}
