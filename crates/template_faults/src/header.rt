// Why the members of a template are refused, but for its resources.

ghost use Rattle.std.specs.Prelude.{◌≡◌, IfOk, chars, option_map, string_bytes, refl};
ghost use Rattle.arm_value.specs.Look.{fold};
ghost use Rattle.arm_value.specs.Json.{array, object, pairs, row};
ghost use Rattle.arm_value.specs.View.{json};
ghost use Rattle.template_faults.specs.Header.{ends_as_schema, is_schema, schema_fault, text_fault, is_two, form_of};
ghost use Rattle.template_values.specs.Order.{missing};
ghost use Rattle.template_faults.specs.Header.{template_members, form_in, language_fault, is_empty, functions_fault};
ghost use Rattle.template_faults.specs.Header.{is_any, other_fault, describing_fault};

use crate::names::{is_content_version, is_functions, is_language_version, is_schema_name};
use arm_value::{Field, Fields, Items, OutOfMemory, Text, Value};
use std::alloc::Global;
use template_members::{MemberRule, outputs_fault, parameters_fault, variables_fault};
use template_parts::{Form, TemplateFault};
use template_texts::{Place, Sight};
use template_values::order::{missing, wrong_form};

/// Which members a template has; the place is that of its defaults and variables. Its resources are not looked at.
#[derive(Drop)]
pub struct TemplateRule {
    /// Where its defaults and variables are.
    pub place: Place,
}

// The members that a template must have, in byte order.
const TEMPLATE_MEMBERS: [&str; 3] = ["$schema", "contentVersion", "resources"];

// Whether the bytes end as the address of a schema does, in small letters.
fn ends_as_schema(address: &[u8]) -> bool
    ensures { result ≡ ends_as_schema address.now }
{
    address.ends_with(b"/deploymenttemplate.json")
        || address.ends_with(b"/deploymenttemplate.json#")
}

// The text in small letters.
fn in_small_letters(alloc: Global, text: &str) -> Result<String, OutOfMemory>
    ensures { IfOk result (λ s. string_bytes s ≡ fold text.now) }
{
    text.to_ascii_lowercase(alloc)
}

// Whether the text is the address of a schema of templates.
fn is_schema(alloc: Global, text: &Text) -> Result<bool, OutOfMemory>
    ensures { IfOk result (λ b. b ≡ is_schema text.now) }
{
    let address = in_small_letters(alloc, text.as_str())?;
    Ok(ends_as_schema(address.as_bytes()))
}

// Why a schema is refused.
fn schema_fault(alloc: Global, value: &Value) -> Result<Option<TemplateFault>, OutOfMemory>
    ensures { IfOk result (λ f. f ≡ schema_fault (json value.now)) }
{
    let Value::Text(text) = value else {
        return Ok(Some(wrong_form(alloc)));
    };
    if is_schema(alloc, text)? {
        Ok(None)
    } else {
        Ok(Some(wrong_form(alloc)))
    }
}

// Why a value is refused that must be a text.
fn text_fault(alloc: Global, value: &Value) -> Option<TemplateFault>
    ensures { result ≡ text_fault (json value.now) }
{
    match value {
        Value::Text(_) => None,
        _ => Some(wrong_form(alloc)),
    }
}

// Whether a value says that the resources of the template are listed by symbolic names.
#[tactic(auto, using(crate::proofs::WordLemmas::words))]
fn is_two(value: &Value) -> bool
    ensures { result ≡ is_two (json value.now) }
{
    match value {
        Value::Text(text) => text.equals("2.0"),
        _ => false,
    }
}

// The form of a template, by its member `languageVersion`.
fn form_of(language: Option<&Value>) -> Form
    ensures { result ≡ form_of (option_map (λ v. json v.now) language.entry) }
{
    let Some(language) = language else {
        return Form::One;
    };
    if is_two(language) {
        Form::Two
    } else {
        Form::One
    }
}

/// The form of a template of these members.
pub fn form_in(fields: &Fields) -> Form
    ensures { result ≡ form_in (pairs fields.now) }
{
    form_of(fields.look("languageVersion"))
}

/// The first member that a template of these members must have and that is missing.
pub fn lacking_member(fields: &Fields) -> Option<&'static str>
    ensures { option_map (λ n. chars n.now) result ≡ missing template_members (pairs fields.now) }
{
    missing(&TEMPLATE_MEMBERS, fields)
}

// Why the version of the language is refused.
fn language_fault(alloc: Global, value: &Value) -> Option<TemplateFault>
    ensures { result ≡ language_fault (json value.now) }
{
    if is_two(value) {
        None
    } else {
        Some(wrong_form(alloc))
    }
}

// Whether there is no item.
fn has_no_item(items: &Items) -> bool
    ensures { result ≡ is_empty (array (row items.now)) }
{
    match items.as_slice() {
        [] => true,
        [_, ..] => false,
    }
}

// Whether there is no member.
fn has_no_member(fields: &Fields) -> bool
    ensures { result ≡ is_empty (object (pairs fields.now)) }
{
    match fields.as_slice() {
        [] => true,
        [_, ..] => false,
    }
}

// Whether a value is an empty array or an empty object.
fn is_empty(value: &Value) -> bool
    ensures { result ≡ is_empty (json value.now) }
{
    match value {
        Value::Array(items) => has_no_item(items),
        Value::Object(fields) => has_no_member(fields),
        _ => false,
    }
}

// Why functions are refused.
fn functions_fault(alloc: Global, value: &Value) -> Option<TemplateFault>
    ensures { result ≡ functions_fault (json value.now) }
{
    if is_empty(value) {
        None
    } else {
        Some(wrong_form(alloc))
    }
}

// Whether the member is of any form, or is looked at elsewhere.
#[tactic(auto, using(crate::proofs::WordLemmas::words))]
fn is_any(name: &Text) -> bool
    ensures { result ≡ is_any name.now }
{
    name.equals_ignore_case("metadata")
        || name.equals_ignore_case("apiProfile")
        || name.equals_ignore_case("resources")
}

// Why a member is refused that has the version of the language or functions, or another.
fn other_fault(alloc: Global, field: &Field) -> Option<TemplateFault>
    ensures { result ≡ other_fault field.now.name (json field.now.value) }
{
    if is_language_version(&field.name) {
        return language_fault(alloc, &field.value);
    }
    if is_functions(&field.name) {
        return functions_fault(alloc, &field.value);
    }
    if is_any(&field.name) {
        return None;
    }
    Some(wrong_form(alloc))
}

// Why a member is refused that describes the template.
#[tactic(auto, unfolding(crate::specs::Header::describing_fault))]
fn describing_fault(alloc: Global, field: &Field) -> Result<Option<TemplateFault>, OutOfMemory>
    ensures { IfOk result (λ f. f ≡ describing_fault field.now.name (json field.now.value)) }
{
    if is_schema_name(&field.name) {
        return schema_fault(alloc, &field.value);
    }
    if is_content_version(&field.name) {
        return Ok(text_fault(alloc, &field.value));
    }
    Ok(other_fault(alloc, field))
}

impl MemberRule for TemplateRule {
    ghost use Rattle.template_faults.specs.Header.{template_member};
    ghost use Rattle.template_members.specs.Objects.{every};

    ghost single = { λ rule. every };

    ghost folds = { λ rule j k e. refl };

    ghost fault = { λ rule here k j. template_member here rule.place k j };

    fn is_single(&self, _name: &Text) -> bool {
        true
    }

    #[tactic(auto, using(crate::proofs::WordLemmas::words))]
    fn fault(
        &self,
        alloc: Global,
        here: &Sight,
        field: &Field,
    ) -> Result<Option<TemplateFault>, OutOfMemory> {
        if field.name.equals_ignore_case("parameters") {
            return parameters_fault(alloc, here, self.place, &field.value);
        }
        if field.name.equals_ignore_case("variables") {
            return variables_fault(alloc, here, self.place, &field.value);
        }
        if field.name.equals_ignore_case("outputs") {
            return outputs_fault(alloc, here, &field.value);
        }
        describing_fault(alloc, field)
    }
}
