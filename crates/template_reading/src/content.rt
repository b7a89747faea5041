// What variables, outputs and arguments have as their values.

ghost use Rattle.std.specs.Prelude.{◌≡◌, Some, option_map, IfOk};
ghost use Rattle.arm_value.specs.View.{json};
ghost use Rattle.template_meaning.specs.Parts.{loop_of, content_by};

use crate::values::{copy_value, inside};
use arm_value::{OutOfMemory, Value};
use std::alloc::Global;
use template_parts::{Content, run_out};

/// What a loop with a count and an input gives.
pub fn loop_of(alloc: Global, value: &Value) -> Result<Content, OutOfMemory>
    ensures { IfOk result (λ c. c ≡ loop_of (Some (json value.now))) }
{
    let count = copy_value(alloc, inside(Some(value), "count"))?;
    match copy_value(alloc, inside(Some(value), "input")) {
        Ok(input) => Ok(Content::Copy(count, input)),
        Err(_) => run_out(count),
    }
}

/// What the loop gives, where there is one, else the member `value`.
pub fn content_by(
    alloc: Global,
    copy: Option<&Value>,
    value: Option<&Value>,
) -> Result<Content, OutOfMemory>
    ensures { IfOk result (λ c. c
        ≡ content_by (option_map (λ v. json v.now) copy.entry) (option_map (λ v. json v.now) value.entry)) }
{
    match copy {
        Some(copy) => loop_of(alloc, copy),
        None => Ok(Content::Value(copy_value(alloc, inside(value, "value"))?)),
    }
}
