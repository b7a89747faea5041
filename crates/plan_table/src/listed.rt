// The resources of a template in one list.
ghost use Rattle.std.specs.Prelude.{◌≡◌, ◌++◌, ◌∷◌, [], IfOk, map, length, option_map, Some, chars, string_bytes};
ghost use Rattle.template_tree.specs.Tree.{trees};
ghost use Rattle.template_tree.specs.View.{resource_tree, body_tree, template_tree};
ghost use Rattle.plan_filling.specs.Resources.{listed_at, listed_tree, listed_trees, resources_in, type_under};
ghost use Rattle.plan_table.specs.Listed.{above_of, listed_of};

use arm_value::{OutOfMemory, Text};
use std::alloc::Global;
use template_parts::{Declaration, run_out};
use template_tree::{Body, Resource, Resources, Template};

/// The resource that has another as its child.
#[derive(Drop)]
pub struct Parent {
    /// Its number in the list.
    pub number: usize,
    /// Its full type.
    pub kind: Text,
}

/// A resource in the list.
#[derive(Drop)]
pub struct Listed<'a> {
    /// The members that declare it.
    pub declaration: &'a Declaration,
    /// Its body.
    pub body: &'a Body,
    /// Its full type.
    pub kind: Text,
    /// The resource that has it as its child.
    pub above: Option<Parent>,
}

// Adds a slash and the text.
fn push_segment(full: &mut String, segment: &str) -> Result<(), OutOfMemory>
    ensures { IfOk result (λ _. chars (string_bytes full.new)
        ≡ chars (string_bytes full.old) ++ 47 ∷ chars segment.now) }
{
    full.push('/')?;
    full.push_str(segment)?;
    Ok(())
}

// The full type: that of the parent, a slash, and its own.
fn full_kind(alloc: Global, above: &Option<Parent>, kind: &Text) -> Result<Text, OutOfMemory>
    ensures { IfOk result (λ t. t ≡ type_under (option_map above_of above.now) kind.now) }
{
    match above {
        None => kind.copy(alloc),
        Some(parent) => {
            let mut full = parent.kind.copy(alloc)?.into_string();
            push_segment(&mut full, kind.as_str())?;
            Ok(Text::from_string(full))
        }
    }
}

// The parent again.
fn copy_parent(alloc: Global, above: &Option<Parent>) -> Result<Option<Parent>, OutOfMemory>
    ensures { IfOk result (λ p. p ≡ above.now) }
{
    match above {
        None => Ok(None),
        Some(parent) => Ok(Some(Parent {
            number: parent.number,
            kind: parent.kind.copy(alloc)?,
        })),
    }
}

// The resource without its children.
fn listed_alone<'a>(
    alloc: Global,
    above: &Option<Parent>,
    resource: &'a Resource,
) -> Result<Listed<'a>, OutOfMemory>
    ensures { IfOk result (λ l. listed_of l ≡ listed_at (option_map above_of above.now)
        resource.now.declaration (body_tree resource.now.body)) }
{
    let kind = full_kind(alloc, above, &resource.declaration.kind)?;
    match copy_parent(alloc, above) {
        Ok(above) => Ok(Listed {
            declaration: &resource.declaration,
            body: &resource.body,
            kind,
            above,
        }),
        Err(_) => run_out(kind),
    }
}

// The resource that children of this one are listed under.
fn parent_of(alloc: Global, number: usize, listed: &Listed) -> Result<Option<Parent>, OutOfMemory>
    ensures { IfOk result (λ p. p ≡ Some (record { number = number; kind = listed.now.kind })) }
{
    Ok(Some(Parent {
        number,
        kind: listed.kind.copy(alloc)?,
    }))
}

// Lists the resource without its children, and returns what these are listed under.
fn list_one<'a>(
    alloc: Global,
    listed: &mut Vec<Listed<'a>>,
    above: &Option<Parent>,
    resource: &'a Resource,
) -> Result<Option<Parent>, OutOfMemory>
    ensures listed { IfOk result (λ _. map listed_of listed.new.items ≡ map listed_of listed.old.items
        ++ listed_at (option_map above_of above.now) resource.now.declaration (body_tree resource.now.body) ∷ []) }
    ensures under { IfOk result (λ p. option_map above_of p ≡ Some (record {
      number = length listed.old.items;
      type = type_under (option_map above_of above.now) resource.now.declaration.kind;
    })) }
{
    let number = listed.len();
    let one = listed_alone(alloc, above, resource)?;
    match parent_of(alloc, number, &one) {
        Ok(parent) => match listed.push(one) {
            Ok(()) => Ok(parent),
            Err(refused) => run_out((refused, parent)),
        },
        Err(_) => run_out(one),
    }
}

// Lists the resource and its children.
#[cycle(listing)]
fn list_tree<'a>(
    alloc: Global,
    listed: &mut Vec<Listed<'a>>,
    above: &Option<Parent>,
    resource: &'a Resource,
) -> Result<(), OutOfMemory>
    ensures { IfOk result (λ _. map listed_of listed.new.items ≡ map listed_of listed.old.items
        ++ listed_tree (option_map above_of above.now) (length listed.old.items) (resource_tree resource.now)) }
{
    let parent = list_one(alloc, listed, above, resource)?;
    list_trees(alloc, listed, &parent, &resource.resources)
}

// Lists these resources and their children.
#[cycle(listing)]
fn list_trees<'a>(
    alloc: Global,
    listed: &mut Vec<Listed<'a>>,
    above: &Option<Parent>,
    resources: &'a Resources,
) -> Result<(), OutOfMemory>
    ensures { IfOk result (λ _. map listed_of listed.new.items ≡ map listed_of listed.old.items
        ++ listed_trees (option_map above_of above.now) (length listed.old.items) (trees resources.now)) }
{
    for resource in resources.as_slice() {
        list_tree(alloc, listed, above, resource)?;
    }
    Ok(())
}

/// All resources of a template, each before its children.
pub fn list_resources<'a>(
    alloc: Global,
    template: &'a Template,
) -> Result<Vec<Listed<'a>>, OutOfMemory>
    ensures { IfOk result (λ l. map listed_of l.items ≡ resources_in (template_tree template.now)) }
{
    let mut listed = Vec::new(alloc);
    match list_trees(alloc, &mut listed, &None, &template.resources) {
        Ok(()) => Ok(listed),
        Err(_) => run_out(listed),
    }
}
