//! A deployment of the template that a text states.
ghost use Rattle.std.specs.Prelude.{◌≡◌, IfOk, IfSome, None};
ghost use Rattle.arm_template.specs.States.{IsStated};
ghost use Rattle.template_tree.specs.View.{template_tree};

use arm_ids::{Entry, Held, Place};
use arm_template::{Template, read_template};
use arm_value::{Text, Value};
use std::alloc::{AllocError, Global};
use std::test::Fail;
use template_parameters::bind;
use template_parts::{Bound, Given};

/// A template and what it is deployed with.
#[derive(Drop)]
pub struct Deployment {
    /// The template.
    pub template: Template,
    /// What its parameters are bound to: their defaults.
    pub bound: Bound,
    /// Where it is deployed: the group `g` of the subscription `s`.
    pub place: Place,
    /// What is held.
    pub held: Held,
}

impl Deployment {
    /// Drops the deployment.
    pub fn discard(self) {}
}

fn let_go<T: Drop>(_part: T) {}

// Nothing; the part is dropped.
fn nothing<T: Drop, R>(_part: T) -> Option<R>
    ensures { result ≡ None }
{
    None
}

// Both, where both are there.
fn both<A: Drop, B: Drop>(one: Option<A>, other: Option<B>) -> Option<(A, B)> {
    match one {
        Some(one) => match other {
            Some(other) => Some((one, other)),
            None => nothing(one),
        },
        None => nothing(other),
    }
}

// The template that the value states, if it states one.
fn stated(alloc: Global, value: &Value) -> Option<Template>
    ensures { IfSome result (λ t. IsStated (template_tree t)) }
{
    match read_template(alloc, value) {
        Ok(template) => Some(template),
        Err(fault) => nothing(fault),
    }
}

// The template that the text states, if it states one.
fn read(alloc: Global, text: &str) -> Option<Template>
    ensures { IfSome result (λ t. IsStated (template_tree t)) }
{
    match Value::from_json(alloc, text.as_bytes()) {
        Ok(value) => {
            let template = stated(alloc, &value);
            let_go(value);
            template
        }
        Err(fault) => nothing(fault),
    }
}

// What the parameters are bound to, if none has to be given.
fn bound(alloc: Global, template: &Template) -> Option<Bound> {
    let given = Given::new(alloc);
    let bound = bind(alloc, template, &given);
    let_go(given);
    match bound {
        Ok(bound) => Some(bound),
        Err(fault) => nothing(fault),
    }
}

fn texts(alloc: Global, first: &str, second: &str) -> Result<(Text, Text), AllocError> {
    let text = Text::of(alloc, first)?;
    Ok((text, Text::of(alloc, second)?))
}

fn place_of(alloc: Global) -> Result<Place, AllocError> {
    let (subscription, group) = texts(alloc, "s", "g")?;
    let (location, deployment) = texts(alloc, "westeurope", "first")?;
    Ok(Place {
        subscription,
        group,
        location,
        deployment,
    })
}

// The value that the text states; null where there is no text.
fn state_of(alloc: Global, text: &str) -> Option<Value> {
    if text.is_empty() {
        return Some(Value::Null);
    }
    match Value::from_json(alloc, text.as_bytes()) {
        Ok(value) => Some(value),
        Err(fault) => nothing(fault),
    }
}

// Adds what is held at the id, if it is one.
fn put(alloc: Global, held: &mut Held, id: &str, state: Value) -> Option<()> {
    match texts(alloc, id, "1") {
        Ok((id, api)) => {
            let entry = Entry {
                id,
                api,
                body: Value::Null,
                state,
            };
            held.put(alloc, entry).ok()
        }
        Err(_) => nothing(state),
    }
}

// Adds what is held, by its id and its state.
fn hold(alloc: Global, held: &mut Held, line: &str) -> Option<()> {
    let (id, text) = line.split_once(' ').unwrap_or((line, ""));
    let state = state_of(alloc, text)?;
    put(alloc, held, id, state)
}

// Adds what is held, by the lines that begin with `< `.
fn hold_all(alloc: Global, held: &mut Held, lines: &str) -> Option<()> {
    for line in lines.lines() {
        match line.strip_prefix("< ") {
            Some(id) => hold(alloc, held, id)?,
            None => {}
        }
    }
    Some(())
}

fn held_of(alloc: Global, lines: &str) -> Option<Held> {
    let mut held = Held::new(alloc);
    match hold_all(alloc, &mut held, lines) {
        Some(()) => Some(held),
        None => nothing(held),
    }
}

// The deployment of the template.
fn deployed(
    alloc: Global,
    template: Template,
    bound: Option<Bound>,
    lines: &str,
) -> Option<Deployment>
    requires { IsStated (template_tree template) }
    ensures { IfSome result (λ d. IsStated (template_tree d.template)) }
{
    match both(bound, both(place_of(alloc).ok(), held_of(alloc, lines))) {
        Some((bound, (place, held))) => Some(Deployment {
            template,
            bound,
            place,
            held,
        }),
        None => nothing(template),
    }
}

fn found(alloc: Global, text: &str, lines: &str) -> Option<Deployment>
    ensures { IfSome result (λ d. IsStated (template_tree d.template)) }
{
    match read(alloc, text) {
        Some(template) => {
            let bound = bound(alloc, &template);
            deployed(alloc, template, bound, lines)
        }
        None => None,
    }
}

/// The deployment of the template that the text states, where each parameter has its default, and something is held at
/// each id after `< ` in a line of `lines`. Its state is the JSON text after the id, or null.
///
/// # Errors
///
/// The text states no template, a parameter has no default, one of the ids or states is none, or there is no memory.
pub fn deployment_of(alloc: Global, text: &str, lines: &str) -> Result<Deployment, Fail>
    ensures { IfOk result (λ d. IsStated (template_tree d.template)) }
{
    match found(alloc, text, lines) {
        Some(deployment) => Ok(deployment),
        None => Err(Fail::new(format_args!("no deployment: {text}"))),
    }
}
