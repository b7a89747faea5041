// Why the parameters of a template are refused.

ghost use Rattle.std.specs.Prelude.{◌≡◌, IfOk, refl};
ghost use Rattle.arm_value.specs.View.{json};
ghost use Rattle.template_members.specs.Parameters.{is_bound, other_fault, parameters_fault};

use crate::kind::{int_fault, kind_fault};
use crate::object::{MemberRule, object_fault};
use crate::plain::allowed_fault;
use arm_value::{Field, OutOfMemory, Text, Value};
use std::alloc::Global;
use template_parts::TemplateFault;
use template_texts::{Place, Sight};
use template_values::order::wrong_form;
use template_values::value_fault;

// Which members a parameter has; the place is that of its default.
#[derive(Drop)]
struct ParameterRule {
    place: Place,
}

// Which members the parameters of a template are: each is a parameter. The place is that of the defaults.
#[derive(Drop)]
struct ParametersRule {
    place: Place,
}

// Whether the member bounds a value or its length.
#[tactic(auto, using(crate::proofs::WordLemmas::words))]
fn is_bound(name: &Text) -> bool
    ensures { result ≡ is_bound name.now }
{
    name.equals_ignore_case("minValue")
        || name.equals_ignore_case("maxValue")
        || name.equals_ignore_case("minLength")
        || name.equals_ignore_case("maxLength")
}

// Why a member other than the type, the default and the allowed values is refused.
#[tactic(auto, using(crate::proofs::WordLemmas::words), unfolding(crate::specs::Parameters::other_fault))]
fn other_fault(alloc: Global, field: &Field) -> Option<TemplateFault>
    ensures { result ≡ other_fault field.now.name (json field.now.value) }
{
    if is_bound(&field.name) {
        return int_fault(alloc, &field.value);
    }
    if field.name.equals_ignore_case("metadata") {
        return None;
    }
    Some(wrong_form(alloc))
}

impl MemberRule for ParameterRule {
    ghost use Rattle.template_members.specs.Parameters.{parameter_member};
    ghost use Rattle.template_members.specs.Objects.{every};

    ghost single = { λ rule. every };

    ghost folds = { λ rule j k e. refl };

    ghost fault = { λ rule here k j. parameter_member here rule.place k j };

    fn is_single(&self, _name: &Text) -> bool {
        true
    }

    #[tactic(auto, using(crate::proofs::WordLemmas::words))]
    fn fault(
        &self,
        alloc: Global,
        here: &Sight,
        field: &Field,
    ) -> Result<Option<TemplateFault>, OutOfMemory> {
        if field.name.equals_ignore_case("type") {
            return Ok(kind_fault(alloc, &field.value));
        }
        if field.name.equals_ignore_case("defaultValue") {
            return value_fault(alloc, here, self.place, &field.value);
        }
        if field.name.equals_ignore_case("allowedValues") {
            return allowed_fault(alloc, &field.value);
        }
        Ok(other_fault(alloc, field))
    }
}

impl MemberRule for ParametersRule {
    ghost use Rattle.template_members.specs.Parameters.{parameter_fault};
    ghost use Rattle.template_members.specs.Objects.{every};

    ghost single = { λ rule. every };

    ghost folds = { λ rule j k e. refl };

    ghost fault = { λ rule here k j. parameter_fault here rule.place j };

    fn is_single(&self, _name: &Text) -> bool {
        true
    }

    #[tactic(auto, using(crate::proofs::WordLemmas::words))]
    fn fault(
        &self,
        alloc: Global,
        here: &Sight,
        field: &Field,
    ) -> Result<Option<TemplateFault>, OutOfMemory> {
        let rule = ParameterRule { place: self.place };
        object_fault(alloc, &rule, here, &["type"], &field.value)
    }
}

/// Why the parameters of a template are refused: none of two has one name in letters of any case, and each is an object
/// of a `type` with at most a `defaultValue` at this place, `allowedValues` without expressions, `minValue`,
/// `maxValue`, `minLength`, `maxLength` and `metadata`.
pub fn parameters_fault(
    alloc: Global,
    here: &Sight,
    place: Place,
    value: &Value,
) -> Result<Option<TemplateFault>, OutOfMemory>
    ensures { IfOk result (λ f. f ≡ parameters_fault here.now place (json value.now)) }
{
    object_fault(alloc, &ParametersRule { place }, here, &[], value)
}
