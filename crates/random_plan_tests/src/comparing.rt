// How a plan is compared with that of the plain program.
ghost use Rattle.arm_template.specs.States.{IsStated};
ghost use Rattle.template_tree.specs.View.{template_tree};

use crate::listing::push_plain_tasks;
use crate::plain::push_plain_needs;
use arm_env::stop::let_go;
use arm_ids::Held;
use arm_plan::{Plan, PlanFault, Task, plan};
use sample_deployments::deployment::Deployment;
use stated_names::stated_names_differ;
use std::alloc::{AllocError, Global};
use template_parts::Mode;

fn is_same_task(one: &Task, other: &Task) -> bool {
    match (one, other) {
        (Task::Enter(a), Task::Enter(b)) => a == b,
        (Task::Put(a, b, c), Task::Put(d, e, f)) => a == d && b == e && c == f,
        (Task::Leave(a), Task::Leave(b)) => a == b,
        (Task::Delete(a), Task::Delete(b)) => a.same(b),
        _ => false,
    }
}

fn are_same_tasks(tasks: &[Task], others: &[Task]) -> bool {
    if tasks.len() != others.len() {
        return false;
    }
    for (one, other) in tasks.iter().zip(others.iter()) {
        if !is_same_task(one, other) {
            return false;
        }
    }
    true
}

fn has_plain_needs(alloc: Global, plan: &Plan) -> Result<bool, AllocError> {
    let mut needs = Vec::new(alloc);
    let table = &plan.start.register.table;
    push_plain_needs(&mut needs, table, plan.tasks.as_slice())?;
    Ok(needs.as_slice() == plan.needs.as_slice())
}

fn has_plain_tasks(alloc: Global, plan: &Plan, held: &Held) -> Result<bool, AllocError> {
    let mut tasks = Vec::new(alloc);
    let pushed = push_plain_tasks(alloc, &mut tasks, &plan.start.register.table, held);
    let same = are_same_tasks(plan.tasks.as_slice(), tasks.as_slice());
    let_go(tasks);
    pushed?;
    Ok(same)
}

fn difference_of(
    alloc: Global,
    plan: &Plan,
    held: &Held,
) -> Result<Option<&'static str>, AllocError> {
    if !has_plain_tasks(alloc, plan, held)? {
        return Ok(Some("other tasks"));
    }
    if !has_plain_needs(alloc, plan)? {
        return Ok(Some("other needs"));
    }
    Ok(None)
}

/// What differs between the plan of a deployment in complete mode and that of the plain program.
pub fn difference(alloc: Global, asked: &Deployment) -> Result<Option<&'static str>, AllocError>
    requires { IsStated (template_tree asked.now.template) }
{
    stated_names_differ();
    let found = plan(
        alloc,
        &asked.template,
        &asked.bound,
        &asked.place,
        Mode::Complete,
        &asked.held,
    );
    let difference = match &found {
        Ok(plan) => difference_of(alloc, plan, &asked.held),
        Err(_) => Ok(Some("no plan")),
    };
    let_go(found);
    difference
}
