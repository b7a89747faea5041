// Templates, their resources, and nested deployments.
ghost use Rattle.std.specs.Prelude.{◌≡◌, ◌++◌, ◌∷◌, [], length, map, if◌then◌else◌, is_ok};
ghost use Rattle.template_tree.specs.View.{resource_tree};

use arm_value::{Fields, ListOf, OutOfMemory, Text};
use std::alloc::Global;
use std::marker::Model;
use template_parts::{Argument, Declaration, Form, Output, Parameter, Scope, Variable};

/// A template.
#[cycle(template)]
#[derive(Drop)]
pub struct Template {
    /// How it lists its resources.
    pub form: Form,
    /// The address of its schema, the member `$schema`.
    pub schema: Text,
    /// The version of its content.
    pub content_version: Text,
    /// Its parameters, in byte order of their names.
    pub parameters: ListOf<Parameter>,
    /// Its variables in byte order of their names, then those that loops give.
    pub variables: ListOf<Variable>,
    /// Its outputs, in byte order of their names.
    pub outputs: ListOf<Output>,
    /// Its resources: in form One in order, in form Two in byte order of their symbolic names.
    pub resources: Resources,
}

/// A resource, or a nested deployment.
#[cycle(template)]
#[derive(Drop)]
pub struct Resource {
    /// The members that declare it.
    pub declaration: Declaration,
    /// Its body.
    pub body: Body,
    /// Its children, in order. In form Two there are none.
    pub resources: Resources,
}

/// The body of a resource.
#[cycle(template)]
#[derive(Drop)]
pub enum Body {
    /// The members that do not declare it.
    Members(Fields),
    /// A nested deployment.
    Deployment(Deployment),
}

/// A nested deployment.
#[cycle(template)]
#[derive(Drop)]
pub struct Deployment {
    /// Which parameters and variables the expressions of its template see.
    pub scope: Scope,
    /// What it gives for the parameters of its template, in byte order of their names.
    pub parameters: ListOf<Argument>,
    /// Its template.
    pub template: Template,
}

/// The resources of a template, or the children of a resource, which contracts see as the list of their trees.
#[cycle(template)]
#[derive(Drop)]
pub struct Resources {
    resources: Vec<Resource>,
}

impl Model for Resources {
    ghost use Rattle.std.specs.Prelude.{List, map, suc};
    ghost use Rattle.template_tree.specs.Tree.{ResourceTree, trees, trees_depth};

    ghost Value = { List ResourceTree };

    ghost use Rattle.template_tree.specs.TreeCode.{trees_code};

    ghost coded = { trees_code };

    ghost use Rattle.template_tree.specs.View.{resource_tree};

    ghost view = { λ a. map resource_tree a.resources.items };

    ghost size = { λ rs. suc (trees_depth (trees rs)) };

    ghost use Rattle.std.proofs.Common.{arith};
    ghost use Rattle.template_tree.specs.Falls.{resources_fall};

    ghost size_decreases = { λ a h. omega (arith, resources_fall a.resources.items) };
}

impl Resources {
    /// No resource. It takes no memory.
    pub fn new(alloc: Global) -> Resources
        ensures { result ≡ [] }
    {
        Resources {
            resources: Vec::new(alloc),
        }
    }

    /// The resources, to go over.
    pub fn as_slice(&self) -> &[Resource]
        ensures { map resource_tree result.now ≡ self.now }
    {
        self.resources.as_slice()
    }

    /// The number of resources, without their children.
    pub fn len(&self) -> usize
        ensures { result ≡ length self.now }
    {
        self.resources.len()
    }

    /// Adds a resource last. After `OutOfMemory` the resources are unchanged.
    pub fn push(&mut self, resource: Resource) -> Result<(), OutOfMemory>
        ensures { self.new ≡ (if is_ok result then self.old ++ resource_tree resource ∷ [] else self.old) }
    {
        self.resources.push(resource)?;
        Ok(())
    }
}
