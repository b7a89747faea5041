//! Plans of texts.
ghost use Rattle.std.specs.Prelude.{IfOk, IfSome};
ghost use Rattle.given_plans.specs.Given.{IsGiven};

use crate::parts::{both, nothing, with};
use arm_ids::Place;
use arm_value::Text;
use given_plans::{GivenPlan, GivenTask, Naming};
use std::alloc::Global;
use std::test::Fail;

fn texts(alloc: Global, first: &str, second: &str) -> Option<(Text, Text)> {
    both(Text::of(alloc, first).ok(), Text::of(alloc, second).ok())
}

fn place(alloc: Global) -> Option<Place> {
    let names = both(texts(alloc, "s", "g"), texts(alloc, "westeurope", "first"));
    match names {
        Some(((subscription, group), (location, deployment))) => Some(Place {
            subscription,
            group,
            location,
            deployment,
        }),
        None => None,
    }
}

// Each instance has the type `Demo.Lab/things` and the name `x`.
fn naming(alloc: Global) -> Option<Naming> {
    let kind = texts(alloc, "Demo.Lab/things", "2023-01-01");
    match both(place(alloc), both(kind, Text::of(alloc, "x").ok())) {
        Some((place, ((kind, api), name))) => Some(Naming {
            place,
            kind,
            api,
            name,
        }),
        None => None,
    }
}

// The plan, where it has few tasks.
fn few(plan: GivenPlan) -> Option<GivenPlan>
    ensures { IfSome result (λ p. IsGiven p) }
{
    if plan.is_few() {
        Some(plan)
    } else {
        nothing(plan)
    }
}

/// A plan of these tasks, of which the instances are put in batches of a size that is one more than this.
pub fn plan_of(alloc: Global, size: u32, tasks: Option<Vec<GivenTask>>) -> Option<GivenPlan>
    ensures { IfSome result (λ p. IsGiven p) }
{
    match both(naming(alloc), tasks) {
        Some((naming, tasks)) => few(GivenPlan {
            naming,
            size,
            tasks,
        }),
        None => None,
    }
}

// A task by its word and its number.
fn task(line: &str) -> Option<GivenTask> {
    let (word, number) = line.split_once(' ').unwrap_or((line, ""));
    let number = number.parse().ok()?;
    match word {
        "enter" => Some(GivenTask::Enter(number)),
        "put" => Some(GivenTask::Put(number)),
        "leave" => Some(GivenTask::Leave(number)),
        _ => None,
    }
}

fn tasks(alloc: Global, lines: &str) -> Option<Vec<GivenTask>> {
    let mut tasks = Some(Vec::new(alloc));
    for line in lines.lines() {
        tasks = with(tasks, task(line));
    }
    tasks
}

/// A plan of the tasks in these lines, as `enter 0`, `put 3` or `leave 0`. Its instances are put in batches of a size
/// that is one more than this.
///
/// # Errors
///
/// A line is no task, or there is no memory.
pub fn plan(alloc: Global, size: u32, lines: &str) -> Result<GivenPlan, Fail>
    ensures { IfOk result (λ p. IsGiven p) }
{
    match plan_of(alloc, size, tasks(alloc, lines)) {
        Some(plan) => Ok(plan),
        None => Err(Fail::from("no plan")),
    }
}
