// The faults of members and of parts, put together.

ghost use Rattle.std.specs.Prelude.{◌≡◌, [], Some, IfOk, chars, option_map};
ghost use Rattle.arm_value.specs.Json.{pairs};
ghost use Rattle.arm_value.specs.View.{json};
ghost use Rattle.resource_members.specs.Settings.{resource_members};
ghost use Rattle.template_faults.specs.Counts.{count_fault};
ghost use Rattle.template_faults.specs.Faults.{named, earlier, symbol_fault, loop_in, resource_loop, template_by};
ghost use Rattle.template_faults.specs.Faults.{resource_by, properties_by, seen_by};
ghost use Rattle.template_parts.specs.declared.fault.TemplateFault.TheVariants.{WrongForm};
ghost use Rattle.template_values.specs.Order.{below, to_item, to_member, first_of, missing};
ghost use Rattle.template_values.specs.Values.{text_in, names_with};

use crate::header::{TemplateRule, lacking_member};
use crate::limit::count_fault;
use crate::properties::{PropertiesRule, lacking_property};
use crate::symbol::is_symbol;
use arm_value::{Fields, OutOfMemory, Text, Value};
use name_set::NameSet;
use resource_members::{ResourceRule, Setting, required_members};
use std::alloc::Global;
use template_members::first_faulty;
use template_parts::{Scope, TemplateFault, run_out};
use template_texts::{Place, Sight};
use template_values::order::{Faulty, at_item, at_member, decided, is_before, missing, wrong_form};

// The first; the other is dropped.
fn kept<T, U: Drop>(kept: T, _other: U) -> T
    ensures { result ≡ kept }
{
    kept
}

/// The value; the part is dropped.
pub fn done<T: Drop, R>(_part: T, value: R) -> R
    ensures { result ≡ value }
{
    value
}

/// The fault of the member of this name.
pub fn named(
    alloc: Global,
    name: &Text,
    fault: Option<TemplateFault>,
) -> Result<Option<Faulty>, OutOfMemory>
    ensures { IfOk result (λ f. f ≡ named name.now fault) }
{
    let Some(fault) = fault else {
        return Ok(None);
    };
    match name.copy(alloc) {
        Ok(name) => Ok(Some(Faulty { name, fault })),
        Err(_) => run_out(fault),
    }
}

// Of two members with faults the one whose name comes first in byte order.
fn first_named(first: Faulty, second: Faulty) -> Faulty
    ensures { Some result ≡ earlier (Some first) (Some second) }
{
    if is_before(second.name.as_str(), &first.name) {
        kept(second, first)
    } else {
        kept(first, second)
    }
}

/// Of two members with faults the one whose name comes first in byte order.
pub fn earlier(first: Option<Faulty>, second: Option<Faulty>) -> Option<Faulty>
    ensures { result ≡ earlier first second }
{
    match (first, second) {
        (None, None) => None,
        (None, Some(second)) => Some(second),
        (Some(first), None) => Some(first),
        (Some(first), Some(second)) => Some(first_named(first, second)),
    }
}

/// The fault of the item at the place; the names are dropped.
pub fn placed(
    alloc: Global,
    _names: NameSet,
    place: usize,
    fault: TemplateFault,
) -> Result<Option<TemplateFault>, OutOfMemory>
    ensures { IfOk result (λ f. f ≡ Some (below (to_item place) fault)) }
{
    Ok(Some(at_item(alloc, place, fault)?))
}

/// The fault of the member of the name; the names are dropped.
pub fn under(
    alloc: Global,
    _names: NameSet,
    name: &Text,
    fault: TemplateFault,
) -> Result<Option<TemplateFault>, OutOfMemory>
    ensures { IfOk result (λ f. f ≡ Some (below (to_member name.now) fault)) }
{
    Ok(Some(at_member(alloc, name, fault)?))
}

// The symbolic name is none; the fault is dropped.
fn no_symbol(alloc: Global, _inner: Option<TemplateFault>) -> TemplateFault
    ensures { result ≡ WrongForm [] }
{
    wrong_form(alloc)
}

/// A fault of a resource, or of its symbolic name.
pub fn symbol_fault(
    alloc: Global,
    name: &Text,
    inner: Option<TemplateFault>,
) -> Option<TemplateFault>
    ensures { result ≡ symbol_fault name.now inner }
{
    if is_symbol(name) {
        inner
    } else {
        Some(no_symbol(alloc, inner))
    }
}

// The text that a value is.
fn text_in(value: Option<&Value>) -> Option<&Text>
    ensures { option_map (λ t. t.now) result ≡ text_in (option_map (λ v. json v.now) value.entry) }
{
    match value {
        Some(Value::Text(text)) => Some(text),
        _ => None,
    }
}

// The name of a loop.
#[tactic(auto, using(crate::proofs::WordLemmas::words))]
fn loop_in(value: Option<&Value>) -> Option<&Text>
    ensures { option_map (λ t. t.now) result ≡ loop_in (option_map (λ v. json v.now) value.entry) }
{
    match value {
        Some(copy) => text_in(copy.look("name")),
        None => None,
    }
}

// The name of a resource's loop.
#[tactic(auto, using(crate::proofs::WordLemmas::words))]
fn resource_loop(value: &Value) -> Option<&Text>
    ensures { option_map (λ t. t.now) result ≡ resource_loop (json value.now) }
{
    loop_in(value.look("copy"))
}

/// The names with that of a resource's loop.
pub fn with_loop(alloc: Global, names: NameSet, resource: &Value) -> Result<NameSet, OutOfMemory>
    ensures { IfOk result (λ ns. ns ≡ names_with names (resource_loop (json resource.now))) }
{
    match resource_loop(resource) {
        Some(name) => names.with(alloc, name),
        None => Ok(names),
    }
}

/// What the expressions of a nested template of these own names see.
pub fn seen_by<'a>(here: &'a Sight, scope: Scope, own: &'a Sight) -> &'a Sight
    ensures { result.now ≡ seen_by here.now scope own.now }
{
    match scope {
        Scope::Outer => here,
        Scope::Inner => own,
    }
}

// Of two faults the first.
fn fault_or(fault: Option<TemplateFault>, fields: &Fields) -> Option<TemplateFault>
    ensures { result ≡ first_of fault (count_fault (pairs fields.now)) }
{
    match fault {
        Some(fault) => Some(fault),
        None => count_fault(fields),
    }
}

// The first member that a resource of these members must have and that is missing.
fn lacking_resource_member(is_deployment: bool, fields: &Fields) -> Option<&'static str>
    ensures { option_map (λ n. chars n.now) result
        ≡ missing (resource_members is_deployment) (pairs fields.now) }
{
    missing(required_members(is_deployment), fields)
}

/// Why a template of these members is refused, of which one has a fault inside.
pub fn template_by(
    alloc: Global,
    here: &Sight,
    place: Place,
    fields: &Fields,
    inside: Option<Faulty>,
) -> Result<Option<TemplateFault>, OutOfMemory>
    ensures { IfOk result (λ f. f ≡ template_by here.now place (pairs fields.now) inside) }
{
    match first_faulty(alloc, &TemplateRule { place }, here, fields) {
        Ok(own) => {
            let fault = decided(alloc, lacking_member(fields), earlier(own, inside))?;
            Ok(fault_or(fault, fields))
        }
        Err(_) => run_out(inside),
    }
}

/// Why a resource of these members is refused, of which one has a fault inside.
pub fn resource_by(
    alloc: Global,
    here: &Sight,
    setting: Setting,
    names: &NameSet,
    fields: &Fields,
    inside: Option<Faulty>,
) -> Result<Option<TemplateFault>, OutOfMemory>
    ensures { IfOk result (λ f. f ≡ resource_by here.now setting names.now (pairs fields.now) inside) }
{
    match first_faulty(alloc, &ResourceRule { setting, names }, here, fields) {
        Ok(own) => {
            let lacking = lacking_resource_member(setting.is_deployment, fields);
            decided(alloc, lacking, earlier(own, inside))
        }
        Err(_) => run_out(inside),
    }
}

/// Why properties of these members are refused, of which the template has a fault inside.
pub fn properties_by(
    alloc: Global,
    here: &Sight,
    fields: &Fields,
    inside: Option<Faulty>,
) -> Result<Option<TemplateFault>, OutOfMemory>
    ensures { IfOk result (λ f. f ≡ properties_by here.now (pairs fields.now) inside) }
{
    match first_faulty(alloc, &PropertiesRule, here, fields) {
        Ok(own) => decided(alloc, lacking_property(fields), earlier(own, inside)),
        Err(_) => run_out(inside),
    }
}
