// Loops that give a name of their own to variables, or the value to an argument.

ghost use Rattle.std.specs.Prelude.{◌≡◌, [], Some, IfOk, refl};
ghost use Rattle.arm_value.specs.Json.{row, text};
ghost use Rattle.arm_value.specs.View.{json};
ghost use Rattle.template_members.specs.Loops.{may_give, new_name_fault, loop_fault, row_loops_fault, loops_fault};
ghost use Rattle.template_parts.specs.declared.fault.TemplateFault.TheVariants.{WrongForm};
ghost use Rattle.template_values.specs.Order.{below, to_item};
ghost use Rattle.template_values.specs.Values.{names_with, loop_name};

use crate::object::{MemberRule, object_fault};
use arm_expr::is_bracketed;
use arm_value::{Field, Items, OutOfMemory, Text, Value};
use name_set::NameSet;
use std::alloc::Global;
use template_parts::{TemplateFault, run_out};
use template_texts::{Place, Sight};
use template_values::order::{at_item, wrong_form};
use template_values::{loop_name, value_fault};

/// What loops give.
#[derive(Clone, Copy, Debug, PartialEq, Eq)]
pub enum Owner {
    /// Variables of a template.
    Variables,
    /// The value of an argument of a nested deployment.
    Argument,
}

// Which members a loop has, where these names are taken.
#[derive(Drop)]
struct LoopRule<'a> {
    place: Place,
    owner: Owner,
    names: &'a NameSet,
}

// The members of a loop, in byte order.
const LOOP_MEMBERS: [&str; 3] = ["count", "input", "name"];

// Whether a loop there may give this name.
#[tactic(auto, using(crate::proofs::WordLemmas::words))]
fn may_give(owner: Owner, name: &Text) -> bool
    ensures { result ≡ may_give owner name.now }
{
    match owner {
        Owner::Variables => true,
        Owner::Argument => name.equals_ignore_case("value"),
    }
}

// Why a text is refused as the name of a loop, where these names are taken.
fn new_text_fault(
    alloc: Global,
    owner: Owner,
    names: &NameSet,
    name: &Text,
) -> Result<Option<TemplateFault>, OutOfMemory>
    ensures { IfOk result (λ f. f ≡ new_name_fault owner names.now (text name.now)) }
{
    if is_bracketed(name.as_str()) {
        return Ok(Some(wrong_form(alloc)));
    }
    if names.has(alloc, name)? {
        return Ok(Some(wrong_form(alloc)));
    }
    if may_give(owner, name) {
        Ok(None)
    } else {
        Ok(Some(wrong_form(alloc)))
    }
}

// Why the name of a loop is refused, where these names are taken.
fn new_name_fault(
    alloc: Global,
    owner: Owner,
    names: &NameSet,
    value: &Value,
) -> Result<Option<TemplateFault>, OutOfMemory>
    ensures { IfOk result (λ f. f ≡ new_name_fault owner names.now (json value.now)) }
{
    match value {
        Value::Text(name) => new_text_fault(alloc, owner, names, name),
        _ => Ok(Some(wrong_form(alloc))),
    }
}

impl<'a> MemberRule for LoopRule<'a> {
    ghost use Rattle.template_members.specs.Loops.{loop_member};
    ghost use Rattle.template_members.specs.Objects.{every};

    ghost single = { λ rule. every };

    ghost folds = { λ rule j k e. refl };

    ghost fault = { λ rule here k j. loop_member here rule.place rule.owner rule.names.now k j };

    fn is_single(&self, _name: &Text) -> bool {
        true
    }

    #[tactic(auto, using(crate::proofs::WordLemmas::words))]
    fn fault(
        &self,
        alloc: Global,
        here: &Sight,
        field: &Field,
    ) -> Result<Option<TemplateFault>, OutOfMemory> {
        if field.name.equals_ignore_case("name") {
            return new_name_fault(alloc, self.owner, self.names, &field.value);
        }
        if field.name.equals_ignore_case("count") || field.name.equals_ignore_case("input") {
            return value_fault(alloc, here, self.place, &field.value);
        }
        Ok(Some(wrong_form(alloc)))
    }
}

// Why a loop is refused, where these names are taken.
#[tactic(auto, using(crate::proofs::WordLemmas::words))]
fn loop_fault(
    alloc: Global,
    here: &Sight,
    place: Place,
    owner: Owner,
    names: &NameSet,
    value: &Value,
) -> Result<Option<TemplateFault>, OutOfMemory>
    ensures { IfOk result (λ f. f ≡ loop_fault here.now place owner names.now (json value.now)) }
{
    let rule = LoopRule {
        place,
        owner,
        names,
    };
    object_fault(alloc, &rule, here, &LOOP_MEMBERS, value)
}

// The names with that of a loop.
fn with_loop(alloc: Global, names: NameSet, value: &Value) -> Result<NameSet, OutOfMemory>
    ensures { IfOk result (λ ns. ns ≡ names_with names (loop_name (json value.now))) }
{
    match loop_name(value) {
        Some(name) => names.with(alloc, name),
        None => Ok(names),
    }
}

// The fault of the item at the place; the names are dropped.
fn placed(
    alloc: Global,
    _names: NameSet,
    place: usize,
    fault: TemplateFault,
) -> Result<Option<TemplateFault>, OutOfMemory>
    ensures { IfOk result (λ f. f ≡ Some (below (to_item place) fault)) }
{
    Ok(Some(at_item(alloc, place, fault)?))
}

// Why a loop among these is refused.
fn row_loops_fault(
    alloc: Global,
    here: &Sight,
    place: Place,
    owner: Owner,
    names: NameSet,
    items: &Items,
) -> Result<Option<TemplateFault>, OutOfMemory>
    ensures { IfOk result (λ f. f ≡ row_loops_fault here.now place owner names 0 (row items.now)) }
{
    let mut taken = names;
    for (i, item) in items.as_slice().iter().enumerate() {
        match loop_fault(alloc, here, place, owner, &taken, item) {
            Ok(None) => taken = with_loop(alloc, taken, item)?,
            Ok(Some(fault)) => return placed(alloc, taken, i, fault),
            Err(_) => return run_out(taken),
        }
    }
    Ok(None)
}

// The value is no array; the names are dropped.
fn no_array(alloc: Global, _names: NameSet) -> TemplateFault
    ensures { result ≡ WrongForm [] }
{
    wrong_form(alloc)
}

/// Why a value is refused that must be an array of loops, where these names are taken in letters of any case.
pub fn loops_fault(
    alloc: Global,
    here: &Sight,
    place: Place,
    owner: Owner,
    names: NameSet,
    value: &Value,
) -> Result<Option<TemplateFault>, OutOfMemory>
    ensures { IfOk result (λ f. f ≡ loops_fault here.now place owner names (json value.now)) }
{
    match value {
        Value::Array(items) => row_loops_fault(alloc, here, place, owner, names, items),
        _ => Ok(Some(no_array(alloc, names))),
    }
}
