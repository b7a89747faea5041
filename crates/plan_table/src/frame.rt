// The frames of a table: each is a scope that is there.
ghost use Rattle.std.specs.Prelude.{◌≡◌, ◌∷◌, ◌++◌, ◌<◌, [], IfOk, Some, map, not, length, slice_get};
ghost use Rattle.template_tree.specs.View.{template_tree};
ghost use Rattle.plan_filling.specs.Resources as cells;
ghost use Rattle.plan_filling.specs.Resources.{resources_in};
ghost use Rattle.plan_filling.specs.Scopes.{is_outer_scope, loop_at};
ghost use Rattle.plan_table.specs.Opened.{opened_of, root_of, inside_of, step_of, nested_view, owner_inside};
ghost use Rattle.plan_table.specs.Opened.{loops_within};

use crate::listed::{Listed, list_resources};
use arm_env::env::Looping;
use arm_value::OutOfMemory;
use std::alloc::Global;
use template_parts::{Declaration, Scope, run_out};
use template_tree::{Deployment, Template};

/// An instance of a resource.
#[derive(Clone, Copy)]
pub struct Instance {
    /// The number of the resource in its template.
    pub resource: usize,
    /// The index in its loop, or 0.
    pub copy: usize,
}

/// A scope that is there.
#[derive(Drop)]
pub struct Frame<'a> {
    /// Its template.
    pub template: &'a Template,
    /// The resources of its template, each before its children.
    pub resources: Vec<Listed<'a>>,
    /// The instances of nested deployments that lead to it, the innermost first.
    pub position: Vec<Instance>,
    /// The number of the frame around it; of the root its own.
    pub around: usize,
    /// The number of the frame whose parameters and variables its expressions see.
    pub owner: usize,
    /// The loops around it, the nearest first.
    pub loops: Vec<Looping>,
    /// Whether it has parameters and variables of its own.
    pub own: bool,
}

/// The frame of the root.
pub fn root_frame<'a>(alloc: Global, template: &'a Template) -> Result<Frame<'a>, OutOfMemory>
    ensures { IfOk result (λ f. opened_of f ≡ root_of (template_tree template.now)) }
{
    let resources = list_resources(alloc, template)?;
    Ok(Frame {
        template,
        resources,
        position: Vec::new(alloc),
        around: 0,
        owner: 0,
        loops: Vec::new(alloc),
        own: true,
    })
}

// The position of the scope that an instance opens.
fn position_inside(
    alloc: Global,
    around: &[Instance],
    instance: Instance,
) -> Result<Vec<Instance>, OutOfMemory>
    ensures { IfOk result (λ p. p.items ≡ instance ∷ around.now) }
{
    let mut position = Vec::new(alloc);
    position.push(instance)?;
    for outer in around {
        position.push(*outer)?;
    }
    Ok(position)
}

// The loop again.
fn copy_looping(alloc: Global, looping: &Looping) -> Result<Looping, OutOfMemory>
    ensures { IfOk result (λ l. l ≡ looping.now) }
{
    let name = match &looping.name {
        Some(name) => Some(name.copy(alloc)?),
        None => None,
    };
    Ok(Looping {
        name,
        index: looping.index,
        main: looping.main,
    })
}

// Adds copies of these loops.
fn push_loops(
    alloc: Global,
    loops: &mut Vec<Looping>,
    around: &[Looping],
) -> Result<(), OutOfMemory>
    ensures { IfOk result (λ _. loops.new.items ≡ loops.old.items ++ around.now) }
{
    for looping in around {
        match copy_looping(alloc, looping) {
            Ok(copy) => loops.push(copy)?,
            Err(refused) => return Err(refused),
        }
    }
    Ok(())
}

/// The loops around what an instance of a resource has, the nearest first: that of the resource, where it has one, and
/// those around its scope.
pub fn loops_inside(
    alloc: Global,
    declaration: &Declaration,
    copy: usize,
    around: &[Looping],
) -> Result<Vec<Looping>, OutOfMemory>
    requires { copy < 800 }
    ensures { IfOk result (λ l. l.items ≡ loop_at declaration.now.copy copy ++ around.now) }
{
    let mut loops = Vec::new(alloc);
    match &declaration.copy {
        Some(looping) => loops.push(Looping {
            name: Some(looping.name.copy(alloc)?),
            index: copy as u32,
            main: true,
        })?,
        None => {}
    }
    push_loops(alloc, &mut loops, around)?;
    Ok(loops)
}

// The loops around the scope that an instance opens.
fn loops_of_scope(
    alloc: Global,
    scope: Scope,
    declaration: &Declaration,
    copy: usize,
    around: &[Looping],
) -> Result<Vec<Looping>, OutOfMemory>
    requires { copy < 800 }
    ensures { IfOk result (λ l. l.items
        ≡ loops_within (is_outer_scope scope) (loop_at declaration.now.copy copy ++ around.now)) }
{
    match scope {
        Scope::Outer => loops_inside(alloc, declaration, copy, around),
        Scope::Inner => Ok(Vec::new(alloc)),
    }
}

// Whether the scope sees the parameters around it.
fn is_outer(scope: Scope) -> bool
    ensures { result ≡ is_outer_scope scope }
{
    match scope {
        Scope::Outer => true,
        Scope::Inner => false,
    }
}

// The frame of a scope inside, with its position and loops.
fn frame_with<'a>(
    alloc: Global,
    frame: &Frame,
    around: usize,
    number: usize,
    deployment: &'a Deployment,
    parts: (Vec<Instance>, Vec<Looping>),
) -> Result<Frame<'a>, OutOfMemory>
    ensures { IfOk result (λ f. opened_of f ≡ record {
      position = map step_of parts.0.items;
      template = template_tree deployment.now.template;
      resources = resources_in (template_tree deployment.now.template);
      around = around;
      owner = owner_inside (is_outer_scope deployment.now.scope) frame.now.owner number;
      loops = parts.1.items;
      is_own = not (is_outer_scope deployment.now.scope);
    }) }
{
    let outer = is_outer(deployment.scope);
    match list_resources(alloc, &deployment.template) {
        Ok(resources) => Ok(Frame {
            template: &deployment.template,
            resources,
            position: parts.0,
            around,
            owner: if outer { frame.owner } else { number },
            loops: parts.1,
            own: !outer,
        }),
        Err(_) => run_out(parts),
    }
}

/// The frame of the scope that an instance of a nested deployment opens, which gets this number, in the frame around
/// with the other number.
pub fn frame_inside<'a>(
    alloc: Global,
    frame: &Frame,
    around: usize,
    number: usize,
    instance: Instance,
    deployment: &'a Deployment,
) -> Result<Frame<'a>, OutOfMemory>
    requires resource { instance.resource < length frame.now.resources.items }
    requires copy { instance.copy < 800 }
    ensures { IfOk result (λ f. (x : cells.Listed)
        → slice_get (opened_of frame.now).resources instance.resource ≡ Some x
        → opened_of f ≡ inside_of around number (opened_of frame.now) x instance.resource instance.copy
        (nested_view deployment.now)) }
{
    let position = position_inside(alloc, frame.position.as_slice(), instance)?;
    let declaration = frame.resources[instance.resource].declaration;
    match loops_of_scope(
        alloc,
        deployment.scope,
        declaration,
        instance.copy,
        frame.loops.as_slice(),
    ) {
        Ok(loops) => frame_with(alloc, frame, around, number, deployment, (position, loops)),
        Err(_) => run_out(position),
    }
}
