// A count, a condition or a name that has no value.
ghost use Rattle.std.specs.Prelude.{◌≡◌, ◌<◌, ℕ, true, false, List, length, MatchOption};
ghost use Rattle.plan_table.specs.Rows.{row_at};
ghost use Rattle.plan_table.specs.Opened.{Opened};
ghost use Rattle.plan_table.specs.Lines.{cell_of, status_in, row_of};
ghost use Rattle.plan_table.specs.Whole.{rows_in};
ghost use Rattle.plan_tasks.specs.Answered.{is_asked, has_value, is_answered, AreRowsAnswered};

use plan_table::line::{Line, Spot, State};
use plan_table::table::Table;

// Whether it is a count, a condition or a name.
fn is_asked(spot: Spot) -> bool
    ensures { (os : List Opened) → result ≡ is_asked (cell_of os spot) }
{
    match spot {
        Spot::Count(_, _) => true,
        Spot::Included(_, _, _) => true,
        Spot::Name(_, _, _) => true,
        Spot::Parameter(_, _) => false,
        Spot::Variable(_, _) => false,
        Spot::Offered(_, _) => false,
        Spot::Output(_, _) => false,
        Spot::Deployments(_) => false,
    }
}

// Whether the cell has a value.
fn has_value(state: &State) -> bool
    ensures { result ≡ has_value (status_in state.now) }
{
    match state {
        State::Value(_) => true,
        State::New => false,
        State::Open => false,
        State::Empty => false,
        State::Late(_) => false,
    }
}

// Whether the line has a value, where it is a count, a condition or a name.
fn is_answered(line: &Line) -> bool
    ensures { (os : List Opened) → result ≡ is_answered (row_of os line.now) }
{
    !is_asked(line.spot) || has_value(&line.state)
}

/// The first line of a count, a condition or a name that has no value.
pub fn find_unanswered(table: &Table) -> Option<usize>
    ensures none { MatchOption result (AreRowsAnswered (rows_in table.now)) (λ _. Unit {0}) }
    ensures listed { MatchOption result (Unit {0}) (λ j. j < length (rows_in table.now)) }
    ensures some { MatchOption result (Unit {0}) (λ j. is_answered (row_at (rows_in table.now) j) ≡ false) }
    ensures first { MatchOption result (Unit {0}) (λ j. (i : ℕ) → i < j
        → is_answered (row_at (rows_in table.now) i) ≡ true) }
{
    'lines: for at in 0..table.lines.len() {
        if !is_answered(&table.lines[at]) {
            return Some(at);
        }
    }
    None
}
