// Why the outputs of a template are refused.

ghost use Rattle.std.specs.Prelude.{◌≡◌, IfOk, map, chars, refl};
ghost use Rattle.arm_value.specs.View.{json};
ghost use Rattle.template_members.specs.Outputs.{copy_fault, has_copy, output_members, output_value, output_fault};
ghost use Rattle.template_members.specs.Outputs.{outputs_fault};

use crate::kind::kind_fault;
use crate::object::{MemberRule, object_fault};
use arm_value::{Field, OutOfMemory, Text, Value};
use std::alloc::Global;
use template_parts::TemplateFault;
use template_texts::{Place, Sight};
use template_values::order::{has, wrong_form};
use template_values::value_fault;

// Which members the outputs of a template are: each is an output.
struct OutputsRule;

// Which members an output has, and whether it has a loop.
#[derive(Drop)]
struct OutputRule {
    looped: bool,
}

// Which members an output's loop has.
struct CopyRule;

impl MemberRule for CopyRule {
    ghost use Rattle.template_members.specs.Outputs.{copy_member};
    ghost use Rattle.template_members.specs.Objects.{every};

    ghost single = { λ rule. every };

    ghost folds = { λ rule j k e. refl };

    ghost fault = { λ rule here k j. copy_member here k j };

    fn is_single(&self, _name: &Text) -> bool {
        true
    }

    #[tactic(auto, using(crate::proofs::WordLemmas::words))]
    fn fault(
        &self,
        alloc: Global,
        here: &Sight,
        field: &Field,
    ) -> Result<Option<TemplateFault>, OutOfMemory> {
        if field.name.equals_ignore_case("count") || field.name.equals_ignore_case("input") {
            return value_fault(alloc, here, Place::Elsewhere, &field.value);
        }
        Ok(Some(wrong_form(alloc)))
    }
}

// Why an output's loop is refused.
#[tactic(auto, using(crate::proofs::WordLemmas::words))]
fn copy_fault(
    alloc: Global,
    here: &Sight,
    value: &Value,
) -> Result<Option<TemplateFault>, OutOfMemory>
    ensures { IfOk result (λ f. f ≡ copy_fault here.now (json value.now)) }
{
    object_fault(alloc, &CopyRule, here, &["count", "input"], value)
}

// Why the value of an output is refused.
fn output_value(
    alloc: Global,
    here: &Sight,
    looped: bool,
    value: &Value,
) -> Result<Option<TemplateFault>, OutOfMemory>
    ensures { IfOk result (λ f. f ≡ output_value here.now looped (json value.now)) }
{
    if looped {
        return Ok(Some(wrong_form(alloc)));
    }
    value_fault(alloc, here, Place::Elsewhere, value)
}

impl MemberRule for OutputRule {
    ghost use Rattle.template_members.specs.Outputs.{output_member};
    ghost use Rattle.template_members.specs.Objects.{every};

    ghost single = { λ rule. every };

    ghost folds = { λ rule j k e. refl };

    ghost fault = { λ rule here k j. output_member here rule.looped k j };

    fn is_single(&self, _name: &Text) -> bool {
        true
    }

    #[tactic(auto, using(crate::proofs::WordLemmas::words))]
    fn fault(
        &self,
        alloc: Global,
        here: &Sight,
        field: &Field,
    ) -> Result<Option<TemplateFault>, OutOfMemory> {
        if field.name.equals_ignore_case("type") {
            return Ok(kind_fault(alloc, &field.value));
        }
        if field.name.equals_ignore_case("value") {
            return output_value(alloc, here, self.looped, &field.value);
        }
        if field.name.equals_ignore_case("copy") {
            return copy_fault(alloc, here, &field.value);
        }
        if field.name.equals_ignore_case("condition") {
            return value_fault(alloc, here, Place::Elsewhere, &field.value);
        }
        if field.name.equals_ignore_case("metadata") {
            return Ok(None);
        }
        Ok(Some(wrong_form(alloc)))
    }
}

// Whether an output has a loop.
#[tactic(auto, using(crate::proofs::WordLemmas::words))]
fn has_copy(value: &Value) -> bool
    ensures { result ≡ has_copy (json value.now) }
{
    match value {
        Value::Object(fields) => has(fields, "copy"),
        _ => false,
    }
}

// The members that an output must have, with a loop or without one.
fn output_members(looped: bool) -> &'static [&'static str]
    ensures { map (λ n. chars n.now) result.now ≡ output_members looped }
{
    if looped {
        &["type"]
    } else {
        &["type", "value"]
    }
}

// Why an output is refused.
fn output_fault(
    alloc: Global,
    here: &Sight,
    value: &Value,
) -> Result<Option<TemplateFault>, OutOfMemory>
    ensures { IfOk result (λ f. f ≡ output_fault here.now (json value.now)) }
{
    let looped = has_copy(value);
    let required = output_members(looped);
    object_fault(alloc, &OutputRule { looped }, here, required, value)
}

impl MemberRule for OutputsRule {
    ghost use Rattle.template_members.specs.Outputs.{output_fault};
    ghost use Rattle.template_members.specs.Objects.{every};

    ghost single = { λ rule. every };

    ghost folds = { λ rule j k e. refl };

    ghost fault = { λ rule here k j. output_fault here j };

    fn is_single(&self, _name: &Text) -> bool {
        true
    }

    #[tactic(auto, using(crate::proofs::WordLemmas::words))]
    fn fault(
        &self,
        alloc: Global,
        here: &Sight,
        field: &Field,
    ) -> Result<Option<TemplateFault>, OutOfMemory> {
        output_fault(alloc, here, &field.value)
    }
}

/// Why the outputs of a template are refused: none of two has one name in letters of any case, and each is an object of
/// a `type` and a `value`, or of a `type` and a `copy` with a `count` and an `input`, with at most a `condition` and
/// `metadata` beside them.
pub fn outputs_fault(
    alloc: Global,
    here: &Sight,
    value: &Value,
) -> Result<Option<TemplateFault>, OutOfMemory>
    ensures { IfOk result (λ f. f ≡ outputs_fault here.now (json value.now)) }
{
    object_fault(alloc, &OutputsRule, here, &[], value)
}
