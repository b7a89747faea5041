// Why the properties of a nested deployment are refused, but for its template.

ghost use Rattle.std.specs.Prelude.{◌≡◌, IfOk, chars, option_map, refl};
ghost use Rattle.arm_value.specs.Json.{pairs};
ghost use Rattle.arm_value.specs.View.{json};
ghost use Rattle.template_faults.specs.Properties.{mode_fault, is_scope, scope_fault, options_fault, scope_named};
ghost use Rattle.template_faults.specs.Properties.{property_members, scope_given, scope_of, place_in};
ghost use Rattle.template_values.specs.Order.{missing};

use crate::names::{is_incremental, is_mode, is_options, is_parameters, is_template};
use arm_value::{Field, Fields, OutOfMemory, Text, Value};
use std::alloc::Global;
use template_members::{MemberRule, arguments_fault, object_fault};
use template_parts::{Scope, TemplateFault};
use template_texts::{Place, Sight};
use template_values::order::{missing, wrong_form};

// The members that the properties must have.
const PROPERTY_MEMBERS: [&str; 1] = ["template"];

/// Which members the properties of a nested deployment have. Its template is not looked at.
pub struct PropertiesRule;

// Which members the options of evaluation have.
struct OptionsRule;

// Why a mode is refused.
fn mode_fault(alloc: Global, value: &Value) -> Option<TemplateFault>
    ensures { result ≡ mode_fault (json value.now) }
{
    let Value::Text(word) = value else {
        return Some(wrong_form(alloc));
    };
    if is_incremental(word) {
        None
    } else {
        Some(wrong_form(alloc))
    }
}

// Whether the word is `outer` or `inner`.
#[tactic(auto, using(crate::proofs::WordLemmas::words))]
fn is_scope(word: &Text) -> bool
    ensures { result ≡ is_scope word.now }
{
    word.equals("outer") || word.equals("inner")
}

// Why a scope is refused.
fn scope_fault(alloc: Global, value: &Value) -> Option<TemplateFault>
    ensures { result ≡ scope_fault (json value.now) }
{
    let Value::Text(word) = value else {
        return Some(wrong_form(alloc));
    };
    if is_scope(word) {
        None
    } else {
        Some(wrong_form(alloc))
    }
}

impl MemberRule for OptionsRule {
    ghost use Rattle.template_faults.specs.Properties.{option_member};
    ghost use Rattle.template_members.specs.Objects.{every};

    ghost single = { λ rule. every };

    ghost folds = { λ rule j k e. refl };

    ghost fault = { λ rule here k j. option_member k j };

    fn is_single(&self, _name: &Text) -> bool {
        true
    }

    #[tactic(auto, using(crate::proofs::WordLemmas::words))]
    fn fault(
        &self,
        alloc: Global,
        _here: &Sight,
        field: &Field,
    ) -> Result<Option<TemplateFault>, OutOfMemory> {
        if field.name.equals_ignore_case("scope") {
            return Ok(scope_fault(alloc, &field.value));
        }
        Ok(Some(wrong_form(alloc)))
    }
}

// Why the options of evaluation are refused.
fn options_fault(
    alloc: Global,
    here: &Sight,
    value: &Value,
) -> Result<Option<TemplateFault>, OutOfMemory>
    ensures { IfOk result (λ f. f ≡ options_fault (json value.now)) }
{
    object_fault(alloc, &OptionsRule, here, &[], value)
}

impl MemberRule for PropertiesRule {
    ghost use Rattle.template_faults.specs.Properties.{property_member};
    ghost use Rattle.template_members.specs.Objects.{every};

    ghost single = { λ rule. every };

    ghost folds = { λ rule j k e. refl };

    ghost fault = { λ rule here k j. property_member here k j };

    fn is_single(&self, _name: &Text) -> bool {
        true
    }

    fn fault(
        &self,
        alloc: Global,
        here: &Sight,
        field: &Field,
    ) -> Result<Option<TemplateFault>, OutOfMemory> {
        if is_template(&field.name) {
            return Ok(None);
        }
        if is_parameters(&field.name) {
            return arguments_fault(alloc, here, &field.value);
        }
        if is_mode(&field.name) {
            return Ok(mode_fault(alloc, &field.value));
        }
        if is_options(&field.name) {
            return options_fault(alloc, here, &field.value);
        }
        Ok(Some(wrong_form(alloc)))
    }
}

/// The member that properties of these members must have, where it is missing.
pub fn lacking_property(fields: &Fields) -> Option<&'static str>
    ensures { option_map (λ n. chars n.now) result ≡ missing property_members (pairs fields.now) }
{
    missing(&PROPERTY_MEMBERS, fields)
}

// The scope of a word.
#[tactic(auto, using(crate::proofs::WordLemmas::words))]
fn scope_named(word: Option<&Value>) -> Scope
    ensures { result ≡ scope_named (option_map (λ v. json v.now) word.entry) }
{
    let Some(Value::Text(word)) = word else {
        return Scope::Outer;
    };
    if word.equals("inner") {
        Scope::Inner
    } else {
        Scope::Outer
    }
}

// The scope that the options of evaluation give.
#[tactic(auto, using(crate::proofs::WordLemmas::words))]
fn scope_given(options: Option<&Value>) -> Scope
    ensures { result ≡ scope_given (option_map (λ v. json v.now) options.entry) }
{
    match options {
        Some(options) => scope_named(options.look("scope")),
        None => Scope::Outer,
    }
}

/// The scope of a nested deployment with these properties.
pub fn scope_of(properties: &Fields) -> Scope
    ensures { result ≡ scope_of (pairs properties.now) }
{
    scope_given(properties.look("expressionEvaluationOptions"))
}

/// Where the defaults and the variables of a nested template are.
pub fn place_in(scope: Scope) -> Place
    ensures { result ≡ place_in scope }
{
    match scope {
        Scope::Outer => Place::Unread,
        Scope::Inner => Place::Variable,
    }
}
