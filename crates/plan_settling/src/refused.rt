// A line for which there is no plan.
ghost use Rattle.std.specs.Prelude.{◌≡◌, ◌<◌, ℕ, true, false, List, length, MatchOption};
ghost use Rattle.plan_filling.specs.Rows.{row_at};
ghost use Rattle.plan_refusals.specs.Refusals.{is_needed};
ghost use Rattle.plan_table.specs.Opened.{Opened};
ghost use Rattle.plan_table.specs.Lines.{cell_of, status_in, row_of};
ghost use Rattle.plan_table.specs.Whole.{rows_in};
ghost use Rattle.plan_tasks.specs.Answered.{is_asked};
ghost use Rattle.plan_settling.specs.Refused.{is_late, is_empty, is_refused, AreSettled};

use plan_table::line::{Line, Spot, State};
use plan_table::table::Table;

/// Whether it is a count, a condition or a name.
pub fn is_asked(spot: Spot) -> bool
    ensures { (os : List Opened) → result ≡ is_asked (cell_of os spot) }
{
    match spot {
        Spot::Count(_, _) => true,
        Spot::Included(_, _, _) => true,
        Spot::Name(_, _, _) => true,
        Spot::Parameter(_, _) => false,
        Spot::Variable(_, _) => false,
        Spot::Offered(_, _) => false,
        Spot::Output(_, _) => false,
        Spot::Deployments(_) => false,
    }
}

// Whether it must have a value: one of these, a parameter or a variable.
fn is_needed(spot: Spot) -> bool
    ensures { (os : List Opened) → result ≡ is_needed (cell_of os spot) }
{
    match spot {
        Spot::Count(_, _) => true,
        Spot::Included(_, _, _) => true,
        Spot::Name(_, _, _) => true,
        Spot::Parameter(_, _) => true,
        Spot::Variable(_, _) => true,
        Spot::Offered(_, _) => false,
        Spot::Output(_, _) => false,
        Spot::Deployments(_) => false,
    }
}

// Whether the cell waits for a state.
fn is_late(state: &State) -> bool
    ensures { result ≡ is_late (status_in state.now) }
{
    match state {
        State::Late(_) => true,
        State::Value(_) => false,
        State::New => false,
        State::Open => false,
        State::Empty => false,
    }
}

// Whether the cell has no value.
fn is_empty(state: &State) -> bool
    ensures { result ≡ is_empty (status_in state.now) }
{
    match state {
        State::Empty => true,
        State::Late(_) => false,
        State::Value(_) => false,
        State::New => false,
        State::Open => false,
    }
}

// Whether there is no plan for the line.
fn is_refused(line: &Line) -> bool
    ensures { (os : List Opened) → result ≡ is_refused (row_of os line.now) }
{
    if is_late(&line.state) {
        is_asked(line.spot)
    } else {
        is_empty(&line.state) && is_needed(line.spot)
    }
}

/// The first line for which there is no plan.
pub fn find_refused(table: &Table) -> Option<usize>
    ensures none { MatchOption result (AreSettled (rows_in table.now)) (λ _. Unit {0}) }
    ensures listed { MatchOption result (Unit {0}) (λ j. j < length (rows_in table.now)) }
    ensures some { MatchOption result (Unit {0}) (λ j. is_refused (row_at (rows_in table.now) j) ≡ true) }
{
    'lines: for at in 0..table.lines.len() {
        if is_refused(&table.lines[at]) {
            return Some(at);
        }
    }
    None
}
