// Why the members of a resource are refused.

ghost use Rattle.std.specs.Prelude.{◌≡◌, IfOk};
ghost use Rattle.arm_value.specs.View.{json};
ghost use Rattle.resource_members.specs.Members.{spelled_name_fault, name_fault, depends_fault, children_fault};
ghost use Rattle.resource_members.specs.Members.{further_fault, declaring_fault, existing_fault, body_fault};
ghost use Rattle.resource_members.specs.Members.{other_fault};

use crate::copy::copy_fault;
use crate::setting::{Rank, Setting, is_existence, is_properties, is_single, is_symbolic};
use crate::word::{segment_fault, type_fault, word_fault};
use arm_expr::{Meaning, is_bracketed, meaning_of};
use arm_ids::{is_declaration_member, is_refused_member};
use arm_value::{Field, OutOfMemory, Text, Value};
use name_set::NameSet;
use std::alloc::Global;
use template_members::MemberRule;
use template_parts::TemplateFault;
use template_texts::{Place, Sight};
use template_values::order::wrong_form;
use template_values::value_fault;

/// Which members a resource has, where the loops before it have these names. The children and the properties of a
/// nested deployment are not looked at.
#[derive(Drop)]
pub struct ResourceRule<'a> {
    /// What the resource is.
    pub setting: Setting,
    /// The names of the loops before it.
    pub names: &'a NameSet,
}

// A fault where a plain name has more than one segment, if it is that of a child.
fn spelled_name_fault(alloc: Global, rank: Rank, value: &Value) -> Option<TemplateFault>
    ensures { result ≡ spelled_name_fault rank (json value.now) }
{
    let Value::Text(name) = value else {
        return None;
    };
    match meaning_of(name.as_str()) {
        Meaning::Plain(plain) => segment_fault(alloc, rank, plain),
        Meaning::Expression => None,
    }
}

// Why a name is refused.
fn name_fault(
    alloc: Global,
    here: &Sight,
    rank: Rank,
    value: &Value,
) -> Result<Option<TemplateFault>, OutOfMemory>
    ensures { IfOk result (λ f. f ≡ name_fault here.now rank (json value.now)) }
{
    match value_fault(alloc, here, Place::Elsewhere, value)? {
        Some(fault) => Ok(Some(fault)),
        None => Ok(spelled_name_fault(alloc, rank, value)),
    }
}

// Why a value is refused that must be an array of what the resource depends on.
fn depends_fault(
    alloc: Global,
    here: &Sight,
    value: &Value,
) -> Result<Option<TemplateFault>, OutOfMemory>
    ensures { IfOk result (λ f. f ≡ depends_fault here.now (json value.now)) }
{
    match value {
        Value::Array(_) => value_fault(alloc, here, Place::Elsewhere, value),
        _ => Ok(Some(wrong_form(alloc))),
    }
}

// A fault where a resource has children and a symbolic name.
fn children_fault(alloc: Global, rank: Rank) -> Option<TemplateFault>
    ensures { result ≡ children_fault rank }
{
    if is_symbolic(rank) {
        Some(wrong_form(alloc))
    } else {
        None
    }
}

// Why a member is refused that declares a resource, but for its type, version, name and condition.
#[tactic(auto, using(crate::proofs::WordLemmas::words))]
fn further_fault(
    alloc: Global,
    here: &Sight,
    setting: Setting,
    names: &NameSet,
    field: &Field,
) -> Result<Option<TemplateFault>, OutOfMemory>
    ensures { IfOk result (λ f. f
        ≡ further_fault here.now setting names.now field.now.name (json field.now.value)) }
{
    if field.name.equals_ignore_case("dependsOn") {
        return depends_fault(alloc, here, &field.value);
    }
    if field.name.equals_ignore_case("copy") {
        return copy_fault(alloc, here, setting, names, &field.value);
    }
    if field.name.equals_ignore_case("resources") {
        return Ok(children_fault(alloc, setting.rank));
    }
    Ok(None)
}

// Why a member is refused that declares a resource.
#[tactic(auto, using(crate::proofs::WordLemmas::words))]
fn declaring_fault(
    alloc: Global,
    here: &Sight,
    setting: Setting,
    names: &NameSet,
    field: &Field,
) -> Result<Option<TemplateFault>, OutOfMemory>
    ensures { IfOk result (λ f. f
        ≡ declaring_fault here.now setting names.now field.now.name (json field.now.value)) }
{
    if field.name.equals_ignore_case("type") {
        return Ok(type_fault(alloc, setting.rank, &field.value));
    }
    if field.name.equals_ignore_case("apiVersion") {
        return Ok(word_fault(alloc, &field.value));
    }
    if field.name.equals_ignore_case("name") {
        return name_fault(alloc, here, setting.rank, &field.value);
    }
    if field.name.equals_ignore_case("condition") {
        return value_fault(alloc, here, Place::Elsewhere, &field.value);
    }
    further_fault(alloc, here, setting, names, field)
}

// Why a value is refused that must say whether the resource exists.
fn existing_fault(alloc: Global, is_deployment: bool, value: &Value) -> Option<TemplateFault>
    ensures { result ≡ existing_fault is_deployment (json value.now) }
{
    match value {
        Value::Bool(exists) => if *exists && is_deployment {
            Some(wrong_form(alloc))
        } else {
            None
        },
        _ => Some(wrong_form(alloc)),
    }
}

// Why a member of the body is refused.
fn body_fault(
    alloc: Global,
    here: &Sight,
    field: &Field,
) -> Result<Option<TemplateFault>, OutOfMemory>
    ensures { IfOk result (λ f. f ≡ body_fault here.now field.now.name (json field.now.value)) }
{
    if is_bracketed(field.name.as_str()) {
        return Ok(Some(wrong_form(alloc)));
    }
    value_fault(alloc, here, Place::Elsewhere, &field.value)
}

// Why a member is refused that declares no resource.
fn other_fault(
    alloc: Global,
    here: &Sight,
    setting: Setting,
    field: &Field,
) -> Result<Option<TemplateFault>, OutOfMemory>
    ensures { IfOk result (λ f. f
        ≡ other_fault here.now setting field.now.name (json field.now.value)) }
{
    if is_existence(setting, &field.name) {
        return Ok(existing_fault(alloc, setting.is_deployment, &field.value));
    }
    if is_properties(setting, &field.name) {
        return Ok(None);
    }
    body_fault(alloc, here, field)
}

impl<'a> MemberRule for ResourceRule<'a> {
    ghost use Rattle.resource_members.specs.Members.{member_fault};
    ghost use Rattle.resource_members.specs.Settings.{is_single};
    ghost use Rattle.resource_members.specs.Singles.{single_folds};

    ghost single = { λ rule. is_single rule.setting };

    ghost folds = { λ rule. single_folds rule.setting };

    ghost fault = { λ rule here k j. member_fault here rule.setting rule.names.now k j };

    fn is_single(&self, name: &Text) -> bool {
        is_single(self.setting, name)
    }

    fn fault(
        &self,
        alloc: Global,
        here: &Sight,
        field: &Field,
    ) -> Result<Option<TemplateFault>, OutOfMemory> {
        if is_refused_member(&field.name) {
            return Ok(Some(wrong_form(alloc)));
        }
        if is_declaration_member(&field.name) {
            return declaring_fault(alloc, here, self.setting, self.names, field);
        }
        other_fault(alloc, here, self.setting, field)
    }
}
