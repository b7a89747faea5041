//! How deep templates and resources nest.
ghost use Rattle.std.specs.Prelude.{◌≡◌};
ghost use Rattle.template_tree.specs.Tree.{trees};
ghost use Rattle.template_tree.specs.View.{header_of, template_tree, resource_tree, body_tree};
ghost use Rattle.template_nestings.specs.Nestings as spec;

use crate::parts::{declaration, greater, listed, up};
use template_parts::{Argument, Scope};
use template_tree::{Body, Resource, Resources, Template};

// Of the parameters, the variables and the outputs.
fn header(template: &Template) -> u64
    ensures { result ≡ spec.header_nesting (header_of template.now) }
{
    let rest = greater(
        listed(template.variables.as_slice()),
        listed(template.outputs.as_slice()),
    );
    greater(listed(template.parameters.as_slice()), rest)
}

// Of the options of a nested deployment.
fn options(scope: Scope) -> u64
    ensures { result ≡ spec.scope_nesting scope }
{
    match scope {
        Scope::Outer => 0,
        Scope::Inner => 1,
    }
}

// Of the properties of a nested deployment, by its template.
fn properties(scope: Scope, parameters: &[Argument], template: u64) -> u64
    ensures { result ≡ spec.properties_nesting scope parameters.now template }
{
    up(greater(options(scope), greater(listed(parameters), template)))
}

// Of the array of children, by the deepest of them.
fn children(resources: &Resources, deepest: u64) -> u64
    ensures { result ≡ spec.children_nesting (trees resources.now) deepest }
{
    if resources.as_slice().is_empty() {
        0
    } else {
        up(deepest)
    }
}

#[cycle(nest)]
fn of_template(template: &Template) -> u64
    ensures { result ≡ spec.template_nesting (template_tree template.now) }
{
    up(greater(header(template), up(deepest(&template.resources))))
}

#[cycle(nest)]
fn of_resource(resource: &Resource) -> u64
    ensures { result ≡ spec.resource_nesting (resource_tree resource.now) }
{
    let children = children(&resource.resources, deepest(&resource.resources));
    let rest = greater(children, of_body(&resource.body));
    up(greater(declaration(&resource.declaration), rest))
}

#[cycle(nest)]
fn of_body(body: &Body) -> u64
    ensures { result ≡ spec.body_nesting (body_tree body.now) }
{
    match body {
        Body::Members(fields) => u64::from(fields.depth()),
        Body::Deployment(deployment) => properties(
            deployment.scope,
            deployment.parameters.as_slice(),
            of_template(&deployment.template),
        ),
    }
}

// Of the deepest resource.
#[cycle(nest)]
fn deepest(resources: &Resources) -> u64
    ensures { result ≡ spec.trees_nesting (trees resources.now) }
{
    let mut most = 0;
    for resource in resources.as_slice() {
        most = greater(most, of_resource(resource));
    }
    most
}

/// How deep the value nests that is written of a template, at most 2^64 - 1.
pub fn nesting(template: &Template) -> u64
    ensures { result ≡ spec.template_nesting (template_tree template.now) }
{
    of_template(template)
}
