// What the parameters of a template are bound to.

ghost use Rattle.std.specs.Prelude.{◌≡◌, ◌++◌, ◌∷◌, [], None, Some, map, option_map, IfOk, IfErr, is_none};
ghost use Rattle.arm_value.specs.View.{json};
ghost use Rattle.template_parts.specs.declared.fault.BindFault.TheVariants.{OutOfMemory};
ghost use Rattle.template_parameters.specs.Binding.{given_for, is_declared, extra, lacks_value, missing};
ghost use Rattle.template_parameters.specs.Binding.{breach_of, is_breach, broken, rule_fault, bind_fault, IsFaultOf};
ghost use Rattle.template_parameters.specs.Binding.{default_meaning, meaning_of, value_view, bound_view, bound};

use crate::literals::literal;
use crate::rule::{Breach, first_breach};
use arm_value::{ListOf, OutOfMemory, Text, Value};
use std::alloc::Global;
use template_parts::{
    BindFault, Bound, BoundParameter, BoundValue, Given, GivenValue, Parameter, run_out,
};
use template_tree::Template;

// The value that is given for the name.
fn given_for<'a>(name: &Text, given: &'a [GivenValue]) -> Option<&'a Value>
    ensures { option_map (λ v. json v.now) result ≡ given_for name.now given.now }
{
    for one in given {
        if one.name.equals_ignore_case(name.as_str()) {
            return Some(&one.value);
        }
    }
    None
}

// Whether a parameter has the name.
fn is_declared(parameters: &[Parameter], name: &Text) -> bool
    ensures { result ≡ is_declared parameters.now name.now }
{
    for parameter in parameters {
        if parameter.name.equals_ignore_case(name.as_str()) {
            return true;
        }
    }
    false
}

// The first name that is given and that no parameter has.
fn extra<'a>(parameters: &[Parameter], given: &'a [GivenValue]) -> Option<&'a Text>
    ensures { option_map (λ t. t.now) result ≡ extra parameters.now given.now }
{
    for one in given {
        if !is_declared(parameters, &one.name) {
            return Some(&one.name);
        }
    }
    None
}

// Whether the parameter has no default and no value is given for it.
fn lacks_value(parameter: &Parameter, given: &[GivenValue]) -> bool
    ensures { result ≡ lacks_value given.now parameter.now }
{
    match parameter.default_value {
        Some(_) => false,
        None => given_for(&parameter.name, given).is_none(),
    }
}

// The name of the first parameter without a default and without a value.
fn missing<'a>(parameters: &'a [Parameter], given: &[GivenValue]) -> Option<&'a Text>
    ensures { option_map (λ t. t.now) result ≡ missing given.now parameters.now }
{
    for parameter in parameters {
        if lacks_value(parameter, given) {
            return Some(&parameter.name);
        }
    }
    None
}

// What the parameter's value breaks of its rule, where the value is known.
fn breach_of(
    alloc: Global,
    parameter: &Parameter,
    given: &[GivenValue],
) -> Result<Option<Breach>, OutOfMemory>
    ensures { IfOk result (λ b. b ≡ breach_of given.now parameter.now) }
{
    if let Some(value) = given_for(&parameter.name, given) {
        return Ok(first_breach(parameter, value));
    }
    let Some(default) = &parameter.default_value else {
        return Ok(None);
    };
    match literal(alloc, default)? {
        Some(value) => Ok(first_breach(parameter, &value)),
        None => Ok(None),
    }
}

// Whether it is this breach.
fn is_breach(breach: Breach, found: Option<Breach>) -> bool
    ensures { result ≡ is_breach breach found }
{
    match (breach, found) {
        (Breach::WrongType, Some(Breach::WrongType)) => true,
        (Breach::NotAllowed, Some(Breach::NotAllowed)) => true,
        (Breach::OutOfBounds, Some(Breach::OutOfBounds)) => true,
        _ => false,
    }
}

// The name of the first parameter whose value breaks its rule so.
fn broken(
    alloc: Global,
    breach: Breach,
    parameters: &[Parameter],
    given: &[GivenValue],
) -> Result<Option<Text>, OutOfMemory>
    ensures { IfOk result (λ n. n ≡ broken breach given.now parameters.now) }
{
    for parameter in parameters {
        if is_breach(breach, breach_of(alloc, parameter, given)?) {
            return Ok(Some(parameter.name.copy(alloc)?));
        }
    }
    Ok(None)
}

// The first parameter whose value breaks its rule, as a fault: first those of a wrong type, then those not allowed.
fn rule_fault(
    alloc: Global,
    parameters: &[Parameter],
    given: &[GivenValue],
) -> Result<Option<BindFault>, OutOfMemory>
    ensures { IfOk result (λ f. f ≡ rule_fault given.now parameters.now) }
{
    if let Some(name) = broken(alloc, Breach::WrongType, parameters, given)? {
        return Ok(Some(BindFault::WrongType(name)));
    }
    if let Some(name) = broken(alloc, Breach::NotAllowed, parameters, given)? {
        return Ok(Some(BindFault::NotAllowed(name)));
    }
    match broken(alloc, Breach::OutOfBounds, parameters, given)? {
        Some(name) => Ok(Some(BindFault::OutOfBounds(name))),
        None => Ok(None),
    }
}

// Why the values are refused, where they are.
fn bind_fault(
    alloc: Global,
    parameters: &[Parameter],
    given: &[GivenValue],
) -> Result<Option<BindFault>, OutOfMemory>
    ensures { IfOk result (λ f. f ≡ bind_fault given.now parameters.now) }
{
    if let Some(name) = extra(parameters, given) {
        return Ok(Some(BindFault::ExtraParameter(name.copy(alloc)?)));
    }
    if let Some(name) = missing(parameters, given) {
        return Ok(Some(BindFault::MissingParameter(name.copy(alloc)?)));
    }
    rule_fault(alloc, parameters, given)
}

// A default, by its value where it reads nothing.
fn default_value(alloc: Global, default: &Value) -> Result<BoundValue, OutOfMemory>
    ensures { IfOk result (λ v. value_view v ≡ default_meaning (Some default.now)) }
{
    match literal(alloc, default)? {
        Some(value) => Ok(BoundValue::Known(value)),
        None => Ok(BoundValue::Default(default.copy(alloc)?)),
    }
}

// What the parameter is bound to. One without a default and without a value is refused before.
fn bound_value(
    alloc: Global,
    parameter: &Parameter,
    given: &[GivenValue],
) -> Result<BoundValue, OutOfMemory>
    ensures { IfOk result (λ v. value_view v ≡ meaning_of given.now parameter.now) }
{
    if let Some(value) = given_for(&parameter.name, given) {
        return Ok(BoundValue::Known(value.copy(alloc)?));
    }
    match &parameter.default_value {
        Some(default) => default_value(alloc, default),
        None => Ok(BoundValue::Known(Value::Null)),
    }
}

// The parameter with what it is bound to.
fn bound_parameter(
    alloc: Global,
    parameter: &Parameter,
    given: &[GivenValue],
) -> Result<BoundParameter, OutOfMemory>
    ensures { IfOk result (λ b. bound_view b ≡ (parameter.now.name, meaning_of given.now parameter.now)) }
{
    let value = bound_value(alloc, parameter, given)?;
    match parameter.name.copy(alloc) {
        Ok(name) => Ok(BoundParameter { name, value }),
        Err(_) => run_out(value),
    }
}

// The list with one more at its end.
fn with_bound(mut bound: Bound, parameter: BoundParameter) -> Result<Bound, OutOfMemory>
    ensures { IfOk result (λ b. b ≡ bound ++ parameter ∷ []) }
{
    match bound.push(parameter) {
        Ok(()) => Ok(bound),
        Err(_) => run_out(bound),
    }
}

// What each parameter is bound to.
fn all_bound(
    alloc: Global,
    parameters: &[Parameter],
    given: &[GivenValue],
) -> Result<Bound, OutOfMemory>
    ensures { IfOk result (λ b. map bound_view b ≡ bound given.now parameters.now) }
{
    let mut found = Bound::new(alloc);
    for parameter in parameters {
        match bound_parameter(alloc, parameter, given) {
            Ok(bound) => found = with_bound(found, bound)?,
            Err(_) => return run_out(found),
        }
    }
    Ok(found)
}

/// What each parameter of the template is bound to, in the order of the template, where these values are given.
///
/// A value that is given is taken unchanged. A default without expressions and loops is taken by its value, and any
/// other is left to be evaluated.
///
/// # Errors
///
/// Each where it holds, the first in this order: `ExtraParameter`, the first name that is given and that no parameter
/// has; `MissingParameter`, the first parameter without a default for which no value is given; then `WrongType`,
/// `NotAllowed` and `OutOfBounds`, the first parameter whose value breaks its rule so (`first_breach`).
pub fn bind(alloc: Global, template: &Template, given: &Given) -> Result<Bound, BindFault>
    ensures suits { IfOk result (λ _. bind_fault given.now template.now.parameters ≡ None) }
    ensures bound { IfOk result (λ b. map bound_view b ≡ bound given.now template.now.parameters) }
    ensures fault { IfErr result (IsFaultOf (bind_fault given.now template.now.parameters)) }
{
    let parameters = template.parameters.as_slice();
    let given = given.as_slice();
    match bind_fault(alloc, parameters, given)? {
        Some(fault) => Err(fault),
        None => Ok(all_bound(alloc, parameters, given)?),
    }
}
