//! What is said of plans, in lines of text.
ghost use Rattle.arm_template.specs.States.{IsStated};
ghost use Rattle.template_tree.specs.View.{template_tree};

use crate::deployment::{Deployment, deployment_of};
use crate::lines::{push_needs, push_tasks};
use crate::values::push_values;
use arm_env::stop::let_go;
use arm_plan::{Plan, PlanFault, plan};
use arm_value::{Paths, Text};
use stated_names::stated_names_differ;
use std::alloc::{AllocError, Global};
use std::test::Fail;
use template_parts::Mode;

// Adds the tasks in one line and in a line each, a line for each need, and what is known at the start.
fn push_plan(alloc: Global, out: &mut String, plan: &Plan) -> Result<(), AllocError> {
    let table = &plan.start.register.table;
    push_values(alloc, out, table)?;
    push_tasks(out, table, plan.tasks.as_slice())?;
    push_needs(out, table, plan.tasks.as_slice(), plan.needs.as_slice())
}

fn push_circle(out: &mut String, paths: &Paths) -> Result<(), AllocError> {
    out.push_str("Circle")?;
    for path in paths.as_slice() {
        out.push(' ')?;
        out.push_str(path.as_str())?;
    }
    out.push('\n')
}

fn push_same_key(out: &mut String, first: &Text, second: &Text) -> Result<(), AllocError> {
    writeln!(out, "SameKey {first} {second}\nSameKey {second} {first}")
}

// The word for a reason that has one path, or none, and the path.
fn word_and_path(fault: &PlanFault) -> (&str, &str) {
    match fault {
        PlanFault::NotStartKnown(path, _) => ("NotStartKnown", path.as_str()),
        PlanFault::NoValue(path) => ("NoValue", path.as_str()),
        PlanFault::UnknownDependency(path) => ("UnknownDependency", path.as_str()),
        PlanFault::AmbiguousDependency(path) => ("AmbiguousDependency", path.as_str()),
        _ => ("out of", "memory"),
    }
}

fn push_path(out: &mut String, fault: &PlanFault) -> Result<(), AllocError> {
    let (word, path) = word_and_path(fault);
    writeln!(out, "{word} {path}")
}

// Adds why there is no plan, as messages have it; where two positions have one key, in either order.
fn push_fault(out: &mut String, fault: &PlanFault) -> Result<(), AllocError> {
    match fault {
        PlanFault::SameKey(first, second) => push_same_key(out, first, second),
        PlanFault::Limit(which, number) => writeln!(out, "Limit {} {number}", which.word()),
        PlanFault::Circle(paths) => push_circle(out, paths),
        PlanFault::Bind(path, fault) => writeln!(out, "Bind {} {fault}", path.as_str()),
        _ => push_path(out, fault),
    }
}

fn push_found(
    alloc: Global,
    out: &mut String,
    found: &Result<Plan, PlanFault>,
) -> Result<(), AllocError> {
    match found {
        Ok(plan) => push_plan(alloc, out, plan),
        Err(fault) => push_fault(out, fault),
    }
}

// Adds what is said of the plan, in lines.
fn push_told(
    out: &mut String,
    alloc: Global,
    asked: &Deployment,
    mode: Mode,
) -> Result<(), AllocError>
    requires { IsStated (template_tree asked.now.template) }
{
    stated_names_differ();
    let found = plan(
        alloc,
        &asked.template,
        &asked.bound,
        &asked.place,
        mode,
        &asked.held,
    );
    let pushed = push_found(alloc, out, &found);
    let_go(found);
    pushed
}

/// The plan of the deployment of the template that the text states, where something is held at the ids, each in a line
/// after `< `: in lines; or why there is none.
///
/// # Errors
///
/// The text states no template, a parameter has no default, one of the ids is none, or there is no memory.
pub fn planned(alloc: Global, text: &str, mode: Mode, ids: &str) -> Result<String, Fail> {
    let mut out = String::new(alloc);
    let asked = deployment_of(alloc, text, ids)?;
    let pushed = push_told(&mut out, alloc, &asked, mode);
    asked.discard();
    pushed?;
    Ok(out)
}
