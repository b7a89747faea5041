// Why what a nested deployment gives for the parameters of its template is refused.

ghost use Rattle.std.specs.Prelude.{◌≡◌, map, chars, IfOk, refl};
ghost use Rattle.arm_value.specs.Json.{array, pairs, row};
ghost use Rattle.arm_value.specs.View.{json};
ghost use Rattle.template_members.specs.Arguments.{has_item, pairs_loop, argument_members, argument_in};
ghost use Rattle.template_members.specs.Arguments.{argument_fault, arguments_fault};

use crate::loops::{Owner, loops_fault};
use crate::object::{MemberRule, members_fault, object_fault};
use crate::variable::names_of;
use arm_expr::is_bracketed;
use arm_value::{Field, Fields, Items, OutOfMemory, Text, Value};
use std::alloc::Global;
use template_parts::TemplateFault;
use template_texts::{Place, Sight};
use template_values::order::wrong_form;
use template_values::{is_copy, value_fault};

// Which members an argument has, of which all are these fields.
#[derive(Drop)]
struct ArgumentRule<'a> {
    fields: &'a Fields,
}

// Which members the arguments are: each is an argument.
struct ArgumentsRule;

// Whether there are items.
fn are_some(items: &Items) -> bool
    ensures { result ≡ has_item (array (row items.now)) }
{
    match items.as_slice() {
        [] => false,
        [_, ..] => true,
    }
}

/// Whether the value is an array of one or more items.
pub fn has_item(value: &Value) -> bool
    ensures { result ≡ has_item (json value.now) }
{
    match value {
        Value::Array(items) => are_some(items),
        _ => false,
    }
}

// Whether a loop gives the value.
fn has_loop(fields: &Fields) -> bool
    ensures { result ≡ pairs_loop (pairs fields.now) }
{
    for field in fields.as_slice() {
        if is_copy(&field.name) {
            return has_item(&field.value);
        }
    }
    false
}

impl<'a> MemberRule for ArgumentRule<'a> {
    ghost use Rattle.arm_value.specs.Json.{keys};
    ghost use Rattle.template_members.specs.Arguments.{argument_member};
    ghost use Rattle.template_members.specs.Objects.{every};

    ghost single = { λ rule. every };

    ghost folds = { λ rule j k e. refl };

    ghost fault = { λ rule here k j. argument_member here (keys rule.fields.now) k j };

    fn is_single(&self, _name: &Text) -> bool {
        true
    }

    #[tactic(auto, using(crate::proofs::WordLemmas::words))]
    fn fault(
        &self,
        alloc: Global,
        here: &Sight,
        field: &Field,
    ) -> Result<Option<TemplateFault>, OutOfMemory> {
        if is_copy(&field.name) {
            let names = names_of(alloc, self.fields)?;
            return loops_fault(
                alloc,
                here,
                Place::Elsewhere,
                Owner::Argument,
                names,
                &field.value,
            );
        }
        if field.name.equals_ignore_case("value") {
            return value_fault(alloc, here, Place::Elsewhere, &field.value);
        }
        Ok(Some(wrong_form(alloc)))
    }
}

// The members that an argument must have, where a loop gives the value or none does.
fn argument_members(looped: bool) -> &'static [&'static str]
    ensures { map (λ n. chars n.now) result.now ≡ argument_members looped }
{
    if looped { &[] } else { &["value"] }
}

// Why an argument of these members is refused.
fn argument_in(
    alloc: Global,
    here: &Sight,
    fields: &Fields,
) -> Result<Option<TemplateFault>, OutOfMemory>
    ensures { IfOk result (λ f. f ≡ argument_in here.now (pairs fields.now)) }
{
    let required = argument_members(has_loop(fields));
    members_fault(alloc, &ArgumentRule { fields }, here, required, fields)
}

// Why an argument is refused.
fn argument_fault(
    alloc: Global,
    here: &Sight,
    value: &Value,
) -> Result<Option<TemplateFault>, OutOfMemory>
    ensures { IfOk result (λ f. f ≡ argument_fault here.now (json value.now)) }
{
    match value {
        Value::Object(fields) => argument_in(alloc, here, fields),
        _ => Ok(Some(wrong_form(alloc))),
    }
}

impl MemberRule for ArgumentsRule {
    ghost use Rattle.template_members.specs.Arguments.{arguments_member};
    ghost use Rattle.template_members.specs.Objects.{every};

    ghost single = { λ rule. every };

    ghost folds = { λ rule j k e. refl };

    ghost fault = { λ rule here k j. arguments_member here k j };

    fn is_single(&self, _name: &Text) -> bool {
        true
    }

    fn fault(
        &self,
        alloc: Global,
        here: &Sight,
        field: &Field,
    ) -> Result<Option<TemplateFault>, OutOfMemory> {
        if is_bracketed(field.name.as_str()) || is_copy(&field.name) {
            return Ok(Some(wrong_form(alloc)));
        }
        argument_fault(alloc, here, &field.value)
    }
}

/// Why what a nested deployment gives for the parameters of its template is refused: none of two has one name in
/// letters of any case, no name is in brackets or `copy`, and each is an object of a `value`. In place of the value a
/// member `copy` may have one loop that gives it.
pub fn arguments_fault(
    alloc: Global,
    here: &Sight,
    value: &Value,
) -> Result<Option<TemplateFault>, OutOfMemory>
    ensures { IfOk result (λ f. f ≡ arguments_fault here.now (json value.now)) }
{
    object_fault(alloc, &ArgumentsRule, here, &[], value)
}
