// Why the loop of a resource is refused.

ghost use Rattle.std.specs.Prelude.{◌≡◌, IfOk, refl};
ghost use Rattle.arm_value.specs.Json.{text};
ghost use Rattle.arm_value.specs.View.{json};
ghost use Rattle.resource_members.specs.Copies.{loop_name_fault, is_mode, mode_fault, size_fault, batch_fault};
ghost use Rattle.resource_members.specs.Copies.{loop_fault, may_loop, copy_fault};

use crate::setting::{Rank, Setting};
use arm_expr::is_bracketed;
use arm_value::{Field, OutOfMemory, Text, Value};
use name_set::NameSet;
use std::alloc::Global;
use template_members::{MemberRule, object_fault};
use template_parts::{TemplateFault, Which};
use template_texts::{Place, Sight};
use template_values::order::wrong_form;
use template_values::value_fault;

// Which members the loop of a resource has, where the loops before it have these names.
#[derive(Drop)]
struct CopyRule<'a> {
    names: &'a NameSet,
}

// Why a text is refused as the name of a loop.
fn loop_text_fault(
    alloc: Global,
    names: &NameSet,
    name: &Text,
) -> Result<Option<TemplateFault>, OutOfMemory>
    ensures { IfOk result (λ f. f ≡ loop_name_fault names.now (text name.now)) }
{
    if is_bracketed(name.as_str()) {
        return Ok(Some(wrong_form(alloc)));
    }
    if names.has(alloc, name)? {
        return Ok(Some(wrong_form(alloc)));
    }
    Ok(None)
}

// Why the name of a loop is refused, where the loops before it have these names.
fn loop_name_fault(
    alloc: Global,
    names: &NameSet,
    value: &Value,
) -> Result<Option<TemplateFault>, OutOfMemory>
    ensures { IfOk result (λ f. f ≡ loop_name_fault names.now (json value.now)) }
{
    match value {
        Value::Text(name) => loop_text_fault(alloc, names, name),
        _ => Ok(Some(wrong_form(alloc))),
    }
}

// Whether the word is `parallel` or `serial`.
#[tactic(auto, using(crate::proofs::WordLemmas::words))]
fn is_mode(word: &Text) -> bool
    ensures { result ≡ is_mode word.now }
{
    word.equals("parallel") || word.equals("serial")
}

// Why the mode of a loop is refused.
fn mode_fault(alloc: Global, value: &Value) -> Option<TemplateFault>
    ensures { result ≡ mode_fault (json value.now) }
{
    let Value::Text(word) = value else {
        return Some(wrong_form(alloc));
    };
    if is_mode(word) {
        None
    } else {
        Some(wrong_form(alloc))
    }
}

// Why a size of batches is refused.
fn size_fault(alloc: Global, size: i64) -> Option<TemplateFault>
    ensures { result ≡ size_fault size }
{
    if size < 1 {
        return Some(wrong_form(alloc));
    }
    let size = size as u64;
    if size > 800 {
        Some(TemplateFault::Limit(Which::Batch, size))
    } else {
        None
    }
}

// Why a value is refused that must be a size of batches.
fn batch_fault(alloc: Global, value: &Value) -> Option<TemplateFault>
    ensures { result ≡ batch_fault (json value.now) }
{
    match value {
        Value::Int(size) => size_fault(alloc, *size),
        _ => Some(wrong_form(alloc)),
    }
}

impl<'a> MemberRule for CopyRule<'a> {
    ghost use Rattle.resource_members.specs.Copies.{copy_member};
    ghost use Rattle.template_members.specs.Objects.{every};

    ghost single = { λ rule. every };

    ghost folds = { λ rule j k e. refl };

    ghost fault = { λ rule here k j. copy_member here rule.names.now k j };

    fn is_single(&self, _name: &Text) -> bool {
        true
    }

    #[tactic(auto, using(crate::proofs::WordLemmas::words))]
    fn fault(
        &self,
        alloc: Global,
        here: &Sight,
        field: &Field,
    ) -> Result<Option<TemplateFault>, OutOfMemory> {
        if field.name.equals_ignore_case("name") {
            return loop_name_fault(alloc, self.names, &field.value);
        }
        if field.name.equals_ignore_case("count") {
            return value_fault(alloc, here, Place::Elsewhere, &field.value);
        }
        if field.name.equals_ignore_case("mode") {
            return Ok(mode_fault(alloc, &field.value));
        }
        if field.name.equals_ignore_case("batchSize") {
            return Ok(batch_fault(alloc, &field.value));
        }
        Ok(Some(wrong_form(alloc)))
    }
}

// Whether the resource may have a loop.
fn may_loop(setting: Setting) -> bool
    ensures { result ≡ may_loop setting.rank setting.is_parent }
{
    match setting.rank {
        Rank::Listed => !setting.is_parent,
        Rank::Child => false,
        Rank::Symbolic => true,
    }
}

// Why a loop is refused, where the loops before it have these names.
fn loop_fault(
    alloc: Global,
    here: &Sight,
    names: &NameSet,
    value: &Value,
) -> Result<Option<TemplateFault>, OutOfMemory>
    ensures { IfOk result (λ f. f ≡ loop_fault here.now names.now (json value.now)) }
{
    object_fault(alloc, &CopyRule { names }, here, &["count", "name"], value)
}

/// Why the loop of a resource is refused, where the loops before it have these names.
pub fn copy_fault(
    alloc: Global,
    here: &Sight,
    setting: Setting,
    names: &NameSet,
    value: &Value,
) -> Result<Option<TemplateFault>, OutOfMemory>
    ensures { IfOk result (λ f. f ≡ copy_fault here.now setting names.now (json value.now)) }
{
    if may_loop(setting) {
        loop_fault(alloc, here, names, value)
    } else {
        Ok(Some(wrong_form(alloc)))
    }
}
