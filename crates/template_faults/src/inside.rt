// Why a value is refused as a template, with its resources and the templates of nested deployments.

ghost use Rattle.std.specs.Prelude.{◌≡◌, IfOk};
ghost use Rattle.arm_value.specs.Json.{pairs};
ghost use Rattle.arm_value.specs.View.{json};
ghost use Rattle.template_faults.specs.Faults.{template_in, resources_of, array_in, symbols_in, resource_in};
ghost use Rattle.template_faults.specs.Faults.{children_of, properties_of, properties_in, nested_of, template_fault};

use crate::header::form_in;
use crate::join::{
    done, earlier, named, placed, properties_by, resource_by, seen_by, symbol_fault, template_by,
    under, with_loop,
};
use crate::names::{is_properties, is_resources, is_template};
use crate::properties::{place_in, scope_of};
use crate::sight::sight_of;
use arm_value::{Fields, OutOfMemory, Value};
use name_set::NameSet;
use resource_members::{Rank, is_symbolic, setting_of};
use std::alloc::Global;
use template_parts::{Form, Scope, TemplateFault, run_out};
use template_texts::{Place, Sight};
use template_values::order::{Faulty, wrong_form};

// Why a value is refused as a template whose expressions see these names, and whose variables are at the place.
#[cycle(inside)]
fn template_in(
    alloc: Global,
    here: &Sight,
    place: Place,
    value: &Value,
) -> Result<Option<TemplateFault>, OutOfMemory>
    ensures { IfOk result (λ f. f ≡ template_in here.now place (json value.now)) }
{
    match value {
        Value::Object(fields) => {
            let inside = resources_of(alloc, here, form_in(fields), fields)?;
            template_by(alloc, here, place, fields, inside)
        }
        _ => Ok(Some(wrong_form(alloc))),
    }
}

// The fault of the member `resources` of a template.
#[cycle(inside)]
fn resources_of(
    alloc: Global,
    here: &Sight,
    form: Form,
    fields: &Fields,
) -> Result<Option<Faulty>, OutOfMemory>
    ensures { IfOk result (λ f. f
        ≡ resources_of here.now form (pairs fields.now)) }
{
    for field in fields.as_slice() {
        if is_resources(&field.name) {
            let fault = match form {
                Form::One => array_in(alloc, here, Rank::Listed, &field.value)?,
                Form::Two => symbols_in(alloc, here, &field.value)?,
            };
            return named(alloc, &field.name, fault);
        }
    }
    Ok(None)
}

// Why a value is refused as an array of resources.
#[cycle(inside)]
fn array_in(
    alloc: Global,
    here: &Sight,
    rank: Rank,
    value: &Value,
) -> Result<Option<TemplateFault>, OutOfMemory>
    ensures { IfOk result (λ f. f ≡ array_in here.now rank (json value.now)) }
{
    let Value::Array(items) = value else {
        return Ok(Some(wrong_form(alloc)));
    };
    let mut names = NameSet::new(alloc);
    for (i, item) in items.as_slice().iter().enumerate() {
        match resource_in(alloc, here, rank, &names, item) {
            Ok(None) => names = with_loop(alloc, names, item)?,
            Ok(Some(fault)) => return placed(alloc, names, i, fault),
            Err(_) => return run_out(names),
        }
    }
    Ok(None)
}

// Why a value is refused as an object of resources by symbolic names.
#[cycle(inside)]
fn symbols_in(
    alloc: Global,
    here: &Sight,
    value: &Value,
) -> Result<Option<TemplateFault>, OutOfMemory>
    ensures { IfOk result (λ f. f ≡ symbols_in here.now (json value.now)) }
{
    let Value::Object(fields) = value else {
        return Ok(Some(wrong_form(alloc)));
    };
    let mut names = NameSet::new(alloc);
    for field in fields.as_slice() {
        match resource_in(alloc, here, Rank::Symbolic, &names, &field.value) {
            Ok(inner) => match symbol_fault(alloc, &field.name, inner) {
                None => names = with_loop(alloc, names, &field.value)?,
                Some(fault) => return under(alloc, names, &field.name, fault),
            },
            Err(_) => return run_out(names),
        }
    }
    Ok(None)
}

// Why a value is refused as a resource, where the loops before it have these names.
#[cycle(inside)]
fn resource_in(
    alloc: Global,
    here: &Sight,
    rank: Rank,
    names: &NameSet,
    value: &Value,
) -> Result<Option<TemplateFault>, OutOfMemory>
    ensures { IfOk result (λ f. f ≡ resource_in here.now rank names.now (json value.now)) }
{
    let Value::Object(fields) = value else {
        return Ok(Some(wrong_form(alloc)));
    };
    let setting = setting_of(rank, fields);
    let children = children_of(alloc, here, is_symbolic(rank), fields)?;
    match properties_of(alloc, here, setting.is_deployment, fields) {
        Ok(properties) => {
            let inside = earlier(children, properties);
            resource_by(alloc, here, setting, names, fields, inside)
        }
        Err(_) => run_out(children),
    }
}

// The fault of the children of a resource, which one with a symbolic name has not.
#[cycle(inside)]
fn children_of(
    alloc: Global,
    here: &Sight,
    symbolic: bool,
    fields: &Fields,
) -> Result<Option<Faulty>, OutOfMemory>
    ensures { IfOk result (λ f. f
        ≡ children_of here.now symbolic (pairs fields.now)) }
{
    for field in fields.as_slice() {
        if is_resources(&field.name) {
            if symbolic {
                return Ok(None);
            }
            let fault = array_in(alloc, here, Rank::Child, &field.value)?;
            return named(alloc, &field.name, fault);
        }
    }
    Ok(None)
}

// The fault of the properties of a nested deployment.
#[cycle(inside)]
fn properties_of(
    alloc: Global,
    here: &Sight,
    is_deployment: bool,
    fields: &Fields,
) -> Result<Option<Faulty>, OutOfMemory>
    ensures { IfOk result (λ f. f
        ≡ properties_of here.now is_deployment (pairs fields.now)) }
{
    for field in fields.as_slice() {
        if is_properties(&field.name) {
            if !is_deployment {
                return Ok(None);
            }
            let fault = properties_in(alloc, here, &field.value)?;
            return named(alloc, &field.name, fault);
        }
    }
    Ok(None)
}

// Why a value is refused as the properties of a nested deployment.
#[cycle(inside)]
fn properties_in(
    alloc: Global,
    here: &Sight,
    value: &Value,
) -> Result<Option<TemplateFault>, OutOfMemory>
    ensures { IfOk result (λ f. f ≡ properties_in here.now (json value.now)) }
{
    match value {
        Value::Object(fields) => {
            let inside = nested_of(alloc, here, scope_of(fields), fields)?;
            properties_by(alloc, here, fields, inside)
        }
        _ => Ok(Some(wrong_form(alloc))),
    }
}

// The fault of the template of a nested deployment.
#[cycle(inside)]
fn nested_of(
    alloc: Global,
    here: &Sight,
    scope: Scope,
    fields: &Fields,
) -> Result<Option<Faulty>, OutOfMemory>
    ensures { IfOk result (λ f. f
        ≡ nested_of here.now scope (pairs fields.now)) }
{
    for field in fields.as_slice() {
        if is_template(&field.name) {
            let own = sight_of(alloc, &field.value)?;
            let seen = seen_by(here, scope, &own);
            return match template_in(alloc, seen, place_in(scope), &field.value) {
                Ok(fault) => named(alloc, &field.name, done(own, fault)),
                Err(_) => run_out(own),
            };
        }
    }
    Ok(None)
}

// The result of a look at a template; what was seen is dropped.
fn without_sight(
    sight: Sight,
    found: Result<Option<TemplateFault>, OutOfMemory>,
) -> Result<Option<TemplateFault>, OutOfMemory>
    ensures { result ≡ found }
{
    done(sight, found)
}

/// Why a value is refused as a template; none where it is one.
///
/// Of an object's members the first in byte order of names decides, where a member that is missing counts at its own
/// name, and the limits of a template come after all its members. The path of the fault is that of the member.
///
/// # Errors
///
/// Out of memory.
pub fn template_fault(alloc: Global, value: &Value) -> Result<Option<TemplateFault>, OutOfMemory>
    ensures { IfOk result (λ f. f ≡ template_fault (json value.now)) }
{
    let sight = sight_of(alloc, value)?;
    let found = template_in(alloc, &sight, Place::Variable, value);
    without_sight(sight, found)
}
