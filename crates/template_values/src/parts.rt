// The members of a loop of a value.

ghost use Rattle.std.specs.Prelude.{◌≡◌, [], IfOk};
ghost use Rattle.arm_value.specs.Json.{text};
ghost use Rattle.arm_value.specs.View.{json};
ghost use Rattle.template_parts.specs.declared.fault.TemplateFault.TheVariants.{WrongForm};
ghost use Rattle.template_values.specs.Values.{name_fault, named_fault, part_fault};

use crate::order::wrong_form;
use arm_expr::is_bracketed;
use arm_value::{Field, OutOfMemory, Text, Value};
use name_set::{NameSet, TextSet};
use std::alloc::Global;
use template_parts::{TemplateFault, run_out};

// Why the name of a loop is refused, where it is a text.
fn text_fault(
    alloc: Global,
    names: &TextSet,
    name: &Text,
) -> Result<Option<TemplateFault>, OutOfMemory>
    ensures { IfOk result (λ f. f ≡ name_fault names.now (text name.now)) }
{
    if is_bracketed(name.as_str()) {
        return Ok(Some(wrong_form(alloc)));
    }
    if names.has(alloc, name)? {
        return Ok(Some(wrong_form(alloc)));
    }
    Ok(None)
}

// Why the name of a loop is refused, where the object has these names.
fn name_fault(
    alloc: Global,
    names: &TextSet,
    value: &Value,
) -> Result<Option<TemplateFault>, OutOfMemory>
    ensures { IfOk result (λ f. f ≡ name_fault names.now (json value.now)) }
{
    match value {
        Value::Text(text) => text_fault(alloc, names, text),
        _ => Ok(Some(wrong_form(alloc))),
    }
}

// A member is not one of a loop; the fault of its value is dropped.
fn not_one(alloc: Global, _inner: Option<TemplateFault>) -> TemplateFault
    ensures { result ≡ WrongForm [] }
{
    wrong_form(alloc)
}

// Why a member of a loop is refused, by its name, where its value has this fault.
#[tactic(auto, using(crate::proofs::WordLemmas::words))]
fn named_fault(
    alloc: Global,
    names: &TextSet,
    field: &Field,
    inner: Option<TemplateFault>,
) -> Result<Option<TemplateFault>, OutOfMemory>
    ensures { IfOk result (λ f. f
        ≡ named_fault names.now field.now.name (json field.now.value) inner) }
{
    if field.name.equals_ignore_case("name") {
        return name_fault(alloc, names, &field.value);
    }
    if field.name.equals_ignore_case("count") {
        return Ok(inner);
    }
    if field.name.equals_ignore_case("input") {
        return Ok(inner);
    }
    Ok(Some(not_one(alloc, inner)))
}

/// Why a member of a loop is refused after members of these names, where its value has this fault. The object has the
/// first names.
pub fn part_fault(
    alloc: Global,
    names: &TextSet,
    seen: &NameSet,
    field: &Field,
    inner: Option<TemplateFault>,
) -> Result<Option<TemplateFault>, OutOfMemory>
    ensures { IfOk result (λ f. f
        ≡ part_fault names.now seen.now field.now.name (json field.now.value) inner) }
{
    match seen.has(alloc, &field.name) {
        Ok(true) => Ok(Some(not_one(alloc, inner))),
        Ok(false) => named_fault(alloc, names, field, inner),
        Err(_) => run_out(inner),
    }
}
