// The first part of a job's record in the journal.

ghost use Rattle.std.specs.Prelude.{◌≡◌, ◌≤◌, chars, pos, Some, IfOk};
ghost use Rattle.arm_value.specs.View.{json};
ghost use Rattle.arm_value.specs.Json.{nesting, put, int};
ghost use Rattle.arm_value.specs.Reading.{data_of, reading};
ghost use Rattle.provider_trait.specs.FirstPart.{first_members, first_value, first_part};
ghost use Rattle.provider_trait.specs.JobParts.{assigned};

use crate::job::JobParts;
use crate::parts::{run_out, with_text, with_value};
use arm_value::{Bytes, Fields, OutOfMemory, Value};
use std::alloc::Global;

/// The first part of the record of the job that has these parts.
pub(crate) fn first_part(alloc: Global, parts: &JobParts) -> Result<Bytes, OutOfMemory>
    requires { nesting (json parts.now.body) ≤ 100 }
    ensures text { IfOk result (λ bytes. bytes ≡ first_part (assigned parts.now)) }
    ensures reads { IfOk result (λ bytes. reading bytes ≡ Some (data_of (first_value (assigned parts.now)))) }
{
    let members = first_members(alloc, parts)?;
    Value::Object(members).to_json(alloc)
}

// The members of the first part.
fn first_members(alloc: Global, parts: &JobParts) -> Result<Fields, OutOfMemory>
    requires { nesting (json parts.now.body) ≤ 100 }
    ensures { IfOk result (λ members. members ≡ first_members (assigned parts.now)) }
{
    let versioned = with_text(alloc, Fields::new(), "api", &parts.api)?;
    let filled = with_copy(alloc, versioned, "body", &parts.body)?;
    let named = with_text(alloc, filled, "id", &parts.id)?;
    let numbered = with_number(alloc, named, "task", parts.task)?;
    Ok(with_number(alloc, numbered, "worker", parts.worker)?)
}

// The members with a copy of the value at the name.
fn with_copy(
    alloc: Global,
    members: Fields,
    name: &str,
    value: &Value,
) -> Result<Fields, OutOfMemory>
    requires { nesting (json value.now) ≤ 119 }
    ensures { IfOk result (λ ms. ms ≡ put (chars name.now) (json value.now) members) }
{
    match value.copy(alloc) {
        Ok(value) => with_value(alloc, members, name, value),
        Err(_) => run_out(members),
    }
}

// The members with the number at the name.
fn with_number(
    alloc: Global,
    members: Fields,
    name: &str,
    number: u32,
) -> Result<Fields, OutOfMemory>
    ensures { IfOk result (λ ms. ms ≡ put (chars name.now) (int (pos number)) members) }
{
    with_value(alloc, members, name, Value::Int(i64::from(number)))
}
