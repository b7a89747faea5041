// Templates out of values: what recurses over resources, their children and nested templates.

ghost use Rattle.std.specs.Prelude.{◌≡◌, ◌∷◌, Some, None, option_map, codes, IfOk};
ghost use Rattle.arm_value.specs.View.{json};
ghost use Rattle.template_meaning.specs.Resources.{unnamed, symbolic};
ghost use Rattle.template_meaning.specs.Describes.{DescribesTemplate, DescribesResource, DescribesBody};
ghost use Rattle.template_meaning.specs.Describes.{DescribesResources, Describes};
ghost use Rattle.template_tree.specs.Tree.{trees};
ghost use Rattle.template_tree.specs.View.{template_tree, resource_tree, body_tree};

use crate::body::body_in;
use crate::joined::{
    deployment_with, form_of, is_deployment, resource_with, template_with, with_resource,
};
use arm_value::{OutOfMemory, Text, Value};
use std::alloc::Global;
use template_parts::{Form, run_out};
use template_reading::{inside, items_in, members_in};
use template_tree::{Body, Resource, Resources, Template};

// The template that is described there.
#[cycle(build)]
fn build_template(alloc: Global, value: Option<&Value>) -> Result<Template, OutOfMemory>
    ensures { IfOk result (λ t. DescribesTemplate (option_map (λ v. json v.now) value.entry) (template_tree t)) }
{
    let listed = inside(value, "resources");
    match form_of(value) {
        Form::One => {
            let resources = build_unnamed(alloc, listed)?;
            template_with(alloc, value, resources)
        }
        Form::Two => {
            let resources = build_symbolic(alloc, listed)?;
            template_with(alloc, value, resources)
        }
    }
}

// The resources of an array.
#[cycle(build)]
fn build_unnamed(alloc: Global, value: Option<&Value>) -> Result<Resources, OutOfMemory>
    ensures { IfOk result (λ rs. DescribesResources (unnamed (option_map (λ v. json v.now) value.entry)) (trees rs)) }
{
    let mut resources = Resources::new(alloc);
    for item in items_in(value) {
        match build_resource(alloc, None, item) {
            Ok(resource) => resources = with_resource(resources, resource)?,
            Err(_) => return run_out(resources),
        }
    }
    Ok(resources)
}

// The resources of an object, by their symbolic names.
#[cycle(build)]
fn build_symbolic(alloc: Global, value: Option<&Value>) -> Result<Resources, OutOfMemory>
    ensures { IfOk result (λ rs. DescribesResources (symbolic (option_map (λ v. json v.now) value.entry)) (trees rs)) }
{
    let mut resources = Resources::new(alloc);
    for field in members_in(value) {
        match build_named(alloc, &field.name, &field.value) {
            Ok(resource) => resources = with_resource(resources, resource)?,
            Err(_) => return run_out(resources),
        }
    }
    Ok(resources)
}

// The resource with this symbolic name.
#[cycle(build)]
fn build_named(alloc: Global, symbol: &Text, value: &Value) -> Result<Resource, OutOfMemory>
    ensures { IfOk result (λ r. DescribesResource (Some symbol.now, json value.now) (resource_tree r)) }
{
    let symbol = symbol.copy(alloc)?;
    build_resource(alloc, Some(symbol), value)
}

// The resource, with its children under it.
#[cycle(build)]
fn build_resource(
    alloc: Global,
    symbol: Option<Text>,
    value: &Value,
) -> Result<Resource, OutOfMemory>
    ensures { IfOk result (λ r. DescribesResource (symbol, json value.now) (resource_tree r)) }
{
    match build_unnamed(alloc, inside(Some(value), "resources")) {
        Ok(children) => match build_body(alloc, &symbol, value) {
            Ok(body) => resource_with(alloc, symbol, value, body, children),
            Err(_) => run_out((symbol, children)),
        },
        Err(_) => run_out(symbol),
    }
}

// The body of the resource.
#[cycle(build)]
fn build_body(alloc: Global, symbol: &Option<Text>, value: &Value) -> Result<Body, OutOfMemory>
    ensures { IfOk result (λ b. DescribesBody (symbol.now, json value.now) (body_tree b)) }
{
    if is_deployment(value) {
        let properties = inside(Some(value), "properties");
        let template = build_template(alloc, inside(properties, "template"))?;
        Ok(Body::Deployment(deployment_with(alloc, properties, template)?))
    } else {
        Ok(Body::Members(body_in(alloc, symbol, value)?))
    }
}

/// The template that the value describes. Where the value has no fault, it states this template; every other value
/// describes one too, since what has another form than templates have says the least that its place can have.
///
/// # Errors
///
/// Out of memory.
pub fn build(alloc: Global, value: &Value) -> Result<Template, OutOfMemory>
    ensures { IfOk result (λ t. Describes (json value.now) (template_tree t)) }
{
    build_template(alloc, Some(value))
}
