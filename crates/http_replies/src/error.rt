// The JSON body of an error.

ghost use Rattle.std.specs.Prelude.{◌≡◌, ◌≤◌, chars, IfOk};
ghost use Rattle.arm_value.specs.Json.{nesting, put, text as json_text};
ghost use Rattle.arm_value.specs.View.{json};
ghost use Rattle.http_replies.specs.Replies.{error_json};

use arm_value::{Fields, OutOfMemory, Text, Value};
use std::alloc::{AllocError, Global};

/// The body of an error (Azure Resource Manager, "common error response"): its code and its message.
pub fn error_body(alloc: Global, code: &str, message: &str) -> Result<Value, OutOfMemory>
    ensures { IfOk result (λ body. json body ≡ error_json (chars code.now) (chars message.now)) }
{
    let coded = with_text(alloc, Fields::new(), "code", code)?;
    let told = with_text(alloc, coded, "message", message)?;
    let members = with_value(alloc, Fields::new(), "error", Value::Object(told))?;
    Ok(Value::Object(members))
}

// The members with the text at the name.
fn with_text(alloc: Global, members: Fields, name: &str, text: &str) -> Result<Fields, OutOfMemory>
    ensures { IfOk result (λ ms. ms ≡ put (chars name.now) (json_text (chars text.now)) members) }
{
    match Text::of(alloc, text) {
        Ok(text) => with_value(alloc, members, name, Value::Text(text)),
        Err(_) => run_out(members),
    }
}

// The members with the value at the name.
fn with_value(
    alloc: Global,
    mut members: Fields,
    name: &str,
    value: Value,
) -> Result<Fields, OutOfMemory>
    requires { nesting (json value) ≤ 119 }
    ensures { IfOk result (λ ms. ms ≡ put (chars name.now) (json value) members) }
{
    match members.set(alloc, name, value) {
        Ok(()) => Ok(members),
        Err(_) => run_out(members),
    }
}

/// Out of memory; the part is dropped.
pub(crate) fn run_out<T: Drop, R: Drop>(_part: T) -> Result<R, OutOfMemory>
    ensures { IfOk result (λ _. ⊥) }
{
    Err(AllocError)
}
