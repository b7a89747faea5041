// How a value breaks the rule of its cell.
ghost use Rattle.std.specs.Prelude.{◌≡◌, IfOk, Some, codes, pos, nat_lt, true, ℕ};
ghost use Rattle.std.specs.List.{list_all};
ghost use Rattle.arm_value.specs.View.{json};
ghost use Rattle.template_parameters.specs.Rule.{is_bool, is_text};
ghost use Rattle.arm_value.specs.Json.{int};
ghost use Rattle.plan_faults.specs.Rules.{fault_of, wrong_unless, count_fault, parameter_fault};

use arm_value::{OutOfMemory, Text, Value};
use std::alloc::Global;
use template_parameters::{Breach, first_breach};
use template_parts::{BindFault, Parameter};

// A breach of the rule of the parameter of this name.
fn fault_of(name: Text, breach: Breach) -> BindFault
    ensures { result ≡ fault_of name breach }
{
    match breach {
        Breach::WrongType => BindFault::WrongType(name),
        Breach::NotAllowed => BindFault::NotAllowed(name),
        Breach::OutOfBounds => BindFault::OutOfBounds(name),
    }
}

/// How the value breaks the rule of a parameter, if it does.
pub fn parameter_fault(
    alloc: Global,
    parameter: &Parameter,
    value: &Value,
) -> Result<Option<BindFault>, OutOfMemory>
    ensures { IfOk result (λ o. o ≡ parameter_fault (json value.now) (Some parameter.now)) }
{
    match first_breach(parameter, value) {
        Some(breach) => Ok(Some(fault_of(parameter.name.copy(alloc)?, breach))),
        None => Ok(None),
    }
}

// Whether the value is true or false.
fn is_bool(value: &Value) -> bool
    ensures { result ≡ is_bool (json value.now) }
{
    match value {
        Value::Bool(_) => true,
        _ => false,
    }
}

// Whether the value is a text.
fn is_text(value: &Value) -> bool
    ensures { result ≡ is_text (json value.now) }
{
    match value {
        Value::Text(_) => true,
        _ => false,
    }
}

// A value of the wrong type, unless it is of the right one.
fn wrong_unless(alloc: Global, is_right: bool, name: &str) -> Result<Option<BindFault>, OutOfMemory>
    requires word { list_all (λ b. nat_lt b 128) name.now ≡ true }
    ensures { IfOk result (λ o. o ≡ wrong_unless is_right name.now) }
{
    if is_right {
        Ok(None)
    } else {
        let name = Text::of(alloc, name)?;
        Ok(Some(BindFault::WrongType(name)))
    }
}

/// A value of a wrong type, unless a condition is true or false.
pub fn condition_fault(alloc: Global, value: &Value) -> Result<Option<BindFault>, OutOfMemory>
    ensures { IfOk result (λ o. o ≡ wrong_unless (is_bool (json value.now)) (codes "condition")) }
{
    wrong_unless(alloc, is_bool(value), "condition")
}

// A negative count.
fn bounds_fault(alloc: Global, number: i64) -> Result<Option<BindFault>, OutOfMemory>
    ensures { IfOk result (λ o. o ≡ count_fault (int number)) }
{
    if number < 0 {
        let name = Text::of(alloc, "count")?;
        Ok(Some(BindFault::OutOfBounds(name)))
    } else {
        Ok(None)
    }
}

/// A count that is no number, or a negative one.
pub fn count_fault(alloc: Global, value: &Value) -> Result<Option<BindFault>, OutOfMemory>
    ensures { IfOk result (λ o. o ≡ count_fault (json value.now)) }
{
    match value {
        Value::Int(number) => bounds_fault(alloc, *number),
        Value::Null => wrong_unless(alloc, false, "count"),
        Value::Bool(_) => wrong_unless(alloc, false, "count"),
        Value::Text(_) => wrong_unless(alloc, false, "count"),
        Value::Array(_) => wrong_unless(alloc, false, "count"),
        Value::Object(_) => wrong_unless(alloc, false, "count"),
    }
}

/// A name that is no text.
pub fn name_fault(alloc: Global, value: &Value) -> Result<Option<BindFault>, OutOfMemory>
    ensures { IfOk result (λ o. o ≡ wrong_unless (is_text (json value.now)) (codes "name")) }
{
    wrong_unless(alloc, is_text(value), "name")
}

/// The number that a value is; 0 where it is none from 0 on.
pub fn number_of(value: &Value) -> u64
    ensures { (n : ℕ) → json value.now ≡ int (pos n) → result ≡ n }
{
    match value {
        Value::Int(number) => if *number < 0 { 0 } else { *number as u64 },
        _ => 0,
    }
}
