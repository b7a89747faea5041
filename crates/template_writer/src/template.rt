// Templates, resources and nested deployments as values.

ghost use Rattle.std.specs.Prelude.{◌≡◌, ◌≤◌, ◌++◌, ◌∷◌, [], IfOk};
ghost use Rattle.arm_value.specs.Json.{object, pairs, nesting, items_nesting, members_nesting, IsInOrder};
ghost use Rattle.arm_value.specs.View.{json};
ghost use Rattle.template_tree.specs.Tree.{trees};
ghost use Rattle.template_tree.specs.View.{template_tree, resource_tree, body_tree};
ghost use Rattle.template_written.specs.Keeps.{AreInOrder, Keeps, EachKept, ResourceKept, BodyKept, symbols};
ghost use Rattle.template_written.specs.Parts.{declaration_slots};
ghost use Rattle.template_written.specs.Slots.{put_slots, SlotsNest};
ghost use Rattle.template_written.specs.Written.{written, written_each, written_by_symbol, written_resource};
ghost use Rattle.template_written.specs.Written.{written_body, name_or_none, BodyNests};

use crate::declaration::put_declaration;
use crate::header::{write_header, write_properties};
use crate::lists::{with_item, with_member};
use arm_value::{Fields, Items, OutOfMemory, Text, Value};
use std::alloc::Global;
use template_parts::{Form, run_out};
use template_tree::{Body, Resource, Resources, Template};

// The symbolic name, which is empty where there is none.
fn symbol_text(alloc: Global, symbol: &Option<Text>) -> Result<Text, OutOfMemory>
    ensures { IfOk result (λ t. t ≡ name_or_none symbol.now) }
{
    match symbol {
        Some(symbol) => symbol.copy(alloc),
        None => Text::of(alloc, ""),
    }
}

// The members with one more, under the symbolic name.
fn with_named(
    alloc: Global,
    members: Fields,
    symbol: &Option<Text>,
    value: Value,
) -> Result<Fields, OutOfMemory>
    requires nests { nesting (json value) ≤ 119 }
    requires last { IsInOrder (members ++ (name_or_none symbol.now, json value) ∷ []) }
    ensures { IfOk result (λ ms. ms ≡ members ++ (name_or_none symbol.now, json value) ∷ []) }
{
    match symbol_text(alloc, symbol) {
        Ok(name) => with_member(alloc, members, &name, value),
        Err(_) => run_out((members, value)),
    }
}

// The resource with these members, which are of its body, and these children.
fn joined(
    alloc: Global,
    resource: &Resource,
    body: Fields,
    children: Items,
) -> Result<Value, OutOfMemory>
    requires { SlotsNest 119 (declaration_slots resource.now.declaration children) }
    ensures { IfOk result (λ v. json v
        ≡ object (pairs (put_slots (declaration_slots resource.now.declaration children) body))) }
{
    Ok(Value::Object(put_declaration(alloc, body, &resource.declaration, children)?))
}

// The template as a value.
#[cycle(write)]
fn write_tree(alloc: Global, template: &Template) -> Result<Value, OutOfMemory>
    requires keeps { Keeps (template_tree template.now) }
    requires nests { nesting (written (template_tree template.now)) ≤ 120 }
    ensures { IfOk result (λ v. json v ≡ written (template_tree template.now)) }
{
    match template.form {
        Form::One => {
            let items = write_each(alloc, &template.resources)?;
            write_header(alloc, template, Value::Array(items))
        }
        Form::Two => {
            let members = write_by_symbol(alloc, &template.resources)?;
            write_header(alloc, template, Value::Object(members))
        }
    }
}

// The resources as the items of an array.
#[cycle(write)]
fn write_each(alloc: Global, resources: &Resources) -> Result<Items, OutOfMemory>
    requires keeps { EachKept (trees resources.now) }
    requires nests { items_nesting (written_each (trees resources.now)) ≤ 119 }
    ensures { IfOk result (λ js. js ≡ written_each (trees resources.now)) }
{
    let mut items = Items::new();
    for resource in resources.as_slice() {
        match write_resource(alloc, resource) {
            Ok(value) => items = with_item(alloc, items, value)?,
            Err(_) => return run_out(items),
        }
    }
    Ok(items)
}

// The resources as members under their symbolic names.
#[cycle(write)]
fn write_by_symbol(alloc: Global, resources: &Resources) -> Result<Fields, OutOfMemory>
    requires keeps { EachKept (trees resources.now) }
    requires order { AreInOrder (symbols (trees resources.now)) }
    requires nests { members_nesting (written_by_symbol (trees resources.now)) ≤ 119 }
    ensures { IfOk result (λ ms. ms ≡ written_by_symbol (trees resources.now)) }
{
    let mut members = Fields::new();
    for resource in resources.as_slice() {
        match write_resource(alloc, resource) {
            Ok(value) => {
                members = with_named(alloc, members, &resource.declaration.symbol, value)?;
            }
            Err(_) => return run_out(members),
        }
    }
    Ok(members)
}

// The resource as a value.
#[cycle(write)]
fn write_resource(alloc: Global, resource: &Resource) -> Result<Value, OutOfMemory>
    requires keeps { ResourceKept (resource_tree resource.now) }
    requires nests { nesting (written_resource (resource_tree resource.now)) ≤ 120 }
    ensures { IfOk result (λ v. json v ≡ written_resource (resource_tree resource.now)) }
{
    let children = write_each(alloc, &resource.resources)?;
    match write_body(alloc, &resource.body) {
        Ok(body) => joined(alloc, resource, body, children),
        Err(_) => run_out(children),
    }
}

// The members of the body.
#[cycle(write)]
fn write_body(alloc: Global, body: &Body) -> Result<Fields, OutOfMemory>
    requires keeps { BodyKept (body_tree body.now) }
    requires nests { BodyNests (body_tree body.now) }
    ensures { IfOk result (λ ms. ms ≡ written_body (body_tree body.now)) }
{
    match body {
        Body::Members(fields) => fields.copy(alloc),
        Body::Deployment(deployment) => {
            let template = write_tree(alloc, &deployment.template)?;
            write_properties(alloc, deployment, template)
        }
    }
}

/// The value that is written of the template: each member under its canonical name, without what may be left out.
///
/// # Errors
///
/// Out of memory.
pub fn write_template(alloc: Global, template: &Template) -> Result<Value, OutOfMemory>
    requires keeps { Keeps (template_tree template.now) }
    requires nests { nesting (written (template_tree template.now)) ≤ 120 }
    ensures { IfOk result (λ v. json v ≡ written (template_tree template.now)) }
{
    write_tree(alloc, template)
}
