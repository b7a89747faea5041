// The plan of a template is run.
ghost use Rattle.arm_template.specs.States.{IsStated};
ghost use Rattle.plan_boards.specs.Accepted.{IsAccepted};
ghost use Rattle.template_tree.specs.View.{template_tree};

use crate::any_order;
use crate::driving::drive;
use crate::recorded::{push_fault, recorded};
use crate::telling::push_bytes;
use arm_ids::Held;
use board_replays::Noted;
use deploy_core::Board;
use plan_boards::{Plan, plan, reopen_board};
use sample_boards::ending::reported;
use sample_boards::parts::letting_go;
use sample_boards::telling::told;
use sample_deployments::deployment::{Deployment, deployment_of};
use sample_deployments::rows::{mode_of, template_of};
use stated_names::stated_names_differ;
use std::alloc::{AllocError, Global};
use std::test::Fail;
use task_standings::Standings;
use template_parts::Mode;

/// In which order jobs are done.
#[derive(Clone, Copy)]
pub enum Order {
    /// Before a job of the first worker ends, the second worker does all that it can.
    Nested,
    /// An order that follows from a number.
    Any(u64),
}

// Adds a line: what has happened on the board.
fn push_events<S: Standings>(
    alloc: Global,
    out: &mut String,
    board: &Board<S>,
) -> Result<(), AllocError> {
    let told = told(alloc, board.history())?;
    writeln!(out, "{}", told.as_str())
}

// Adds what is reported of the board.
fn push_report<S: Standings>(
    alloc: Global,
    out: &mut String,
    board: &mut Board<S>,
) -> Result<(), AllocError> {
    match reported(alloc, board, "first") {
        Some(report) => letting_go(push_bytes(out, &report.text), report),
        None => out.push_str("not ended\n"),
    }
}

// Does the jobs of the board, and adds what comes of it.
fn push_driven<S: Standings>(
    alloc: Global,
    out: &mut String,
    mut board: Board<S>,
) -> Result<(), AllocError> {
    drive(alloc, &mut board, out);
    let pushed = push_report(alloc, out, &mut board);
    letting_go(pushed, board)
}

// Does the jobs of the board in an order that follows from the number, and adds what comes of it and what has
// happened.
fn push_any_order<S: Standings>(
    alloc: Global,
    out: &mut String,
    mut board: Board<S>,
    number: u64,
) -> Result<(), AllocError> {
    any_order::drive(alloc, &mut board, out, number);
    let pushed = match push_events(alloc, out, &board) {
        Ok(()) => push_report(alloc, out, &mut board),
        Err(refused) => Err(refused),
    };
    letting_go(pushed, board)
}

// Does the jobs of the board in this order, and adds what comes of it.
fn push_in_order<S: Standings>(
    alloc: Global,
    out: &mut String,
    board: Board<S>,
    order: Order,
) -> Result<(), AllocError> {
    match order {
        Order::Nested => push_driven(alloc, out, board),
        Order::Any(number) => push_any_order(alloc, out, board, number),
    }
}

// Adds what comes of the plan, after recorded answers.
fn push_run(
    alloc: Global,
    out: &mut String,
    plan: &Plan,
    held: &Held,
    answers: Vec<Noted>,
    order: Order,
) -> Result<(), AllocError>
    requires { IsAccepted plan.now held.now }
{
    match reopen_board(alloc, plan, held, answers) {
        Ok(board) => push_in_order(alloc, out, board, order),
        Err(fault) => letting_go(push_fault(out, &fault), fault),
    }
}

// Adds what comes of the deployment, after recorded answers.
fn push_told(
    alloc: Global,
    out: &mut String,
    asked: &Deployment,
    mode: Mode,
    answers: Vec<Noted>,
    order: Order,
) -> Result<(), AllocError>
    requires { IsStated (template_tree asked.now.template) }
{
    stated_names_differ();
    match plan(
        alloc,
        &asked.template,
        &asked.bound,
        &asked.place,
        mode,
        &asked.held,
    ) {
        Ok(plan) => {
            let pushed = push_run(alloc, out, &plan, &asked.held, answers, order);
            letting_go(pushed, plan)
        }
        Err(fault) => letting_go(out.push_str("no plan\n"), (fault, answers)),
    }
}

/// What comes of the deployment of the template that the text states, of what is held and of recorded answers by the
/// lines of a row: a line for each job that is begun and for each that ends, and the report; or why there is no board.
///
/// # Errors
///
/// The text states no template, or there is no memory.
pub fn told_of(alloc: Global, text: &str, row: &str, order: Order) -> Result<String, Fail> {
    let mut out = String::new(alloc);
    let asked = deployment_of(alloc, text, row)?;
    let pushed = match recorded(alloc, row) {
        Some(answers) => push_told(alloc, &mut out, &asked, mode_of(row), answers, order),
        None => Err(AllocError),
    };
    asked.discard();
    pushed?;
    Ok(out)
}

/// What comes of the deployment of a row.
///
/// # Errors
///
/// The row has no template, or something else than one, or there is no memory.
pub fn told_of_row(alloc: Global, row: &str) -> Result<String, Fail> {
    let text = template_of(alloc, row)?;
    told_of(alloc, text.as_str(), row, Order::Nested)
}
