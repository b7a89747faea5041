// Marks on lines: a cell is begun, has no value, or waits for a state.
ghost use Rattle.std.specs.Prelude.{◌≡◌, ◌<◌, length, IfOk, is_ok, if◌then◌else◌};
ghost use Rattle.plan_filling.specs.Rows.{row_at, with_status, Open, Empty, Late, IsWaiting, IsUnfinished};
ghost use Rattle.plan_table.specs.Lines.{status_in, with_state};
ghost use Rattle.plan_table.specs.Whole.{whole_of, rows_in, IsLaid};
ghost use Rattle.plan_table.specs.Counted.{IsCounted};

use crate::line::{Line, State};
use crate::table::Table;
use arm_ids::Key;
use arm_value::OutOfMemory;
use std::alloc::Global;

/// Gives a line this state, and the number of the frame that its value opened.
pub fn set_state(lines: &mut Vec<Line>, at: usize, state: State, opened: usize)
    requires { at < length lines.old.items }
    ensures { lines.new.items ≡ with_state lines.old.items at state opened }
{
    let spot = lines[at].spot;
    lines[at] = Line {
        spot,
        state,
        opened,
    };
}

// The key of the state that a late line waits for.
fn late_key(alloc: Global, line: &Line) -> Result<Key, OutOfMemory>
    requires { IsWaiting (status_in line.now.state) }
    ensures { IfOk result (λ k. Late k ≡ status_in line.now.state) }
{
    match &line.state {
        State::Late(key) => key.copy(alloc),
        State::New => unreachable!(),
        State::Open => unreachable!(),
        State::Value(_) => unreachable!(),
        State::Empty => unreachable!(),
    }
}

impl<'a> Table<'a> {
    /// Begins a cell.
    pub fn begin(&mut self, at: usize)
        requires listed { at < length (rows_in self.old) }
        requires laid { IsLaid self.old }
        requires counted { IsCounted self.old }
        requires unfinished { IsUnfinished (row_at (rows_in self.old) at).status }
        ensures same { whole_of self.new ≡ whole_of self.old }
        ensures laid { IsLaid self.new }
        ensures counted { IsCounted self.new }
        ensures marked { rows_in self.new ≡ with_status (rows_in self.old) at Open }
    {
        set_state(&mut self.lines, at, State::Open, 0);
    }

    /// Leaves a cell without a value.
    pub fn leave_empty(&mut self, at: usize)
        requires listed { at < length (rows_in self.old) }
        requires laid { IsLaid self.old }
        requires counted { IsCounted self.old }
        requires unfinished { IsUnfinished (row_at (rows_in self.old) at).status }
        ensures same { whole_of self.new ≡ whole_of self.old }
        ensures laid { IsLaid self.new }
        ensures counted { IsCounted self.new }
        ensures marked { rows_in self.new ≡ with_status (rows_in self.old) at Empty }
    {
        set_state(&mut self.lines, at, State::Empty, 0);
    }

    /// Marks a cell as one that waits for the state at a key.
    pub fn wait_for(&mut self, at: usize, key: Key)
        requires listed { at < length (rows_in self.old) }
        requires laid { IsLaid self.old }
        requires counted { IsCounted self.old }
        requires unfinished { IsUnfinished (row_at (rows_in self.old) at).status }
        ensures same { whole_of self.new ≡ whole_of self.old }
        ensures laid { IsLaid self.new }
        ensures counted { IsCounted self.new }
        ensures marked { rows_in self.new ≡ with_status (rows_in self.old) at (Late key) }
    {
        set_state(&mut self.lines, at, State::Late(key), 0);
    }

    /// Marks a cell as one that waits for the same state as another, which is late. The table is unchanged after
    /// `OutOfMemory`.
    pub fn wait_as(&mut self, alloc: Global, at: usize, other: usize) -> Result<(), OutOfMemory>
        requires listed { at < length (rows_in self.old) }
        requires other_listed { other < length (rows_in self.old) }
        requires late { IsWaiting (row_at (rows_in self.old) other).status }
        requires laid { IsLaid self.old }
        requires counted { IsCounted self.old }
        requires unfinished { IsUnfinished (row_at (rows_in self.old) at).status }
        ensures same { whole_of self.new ≡ whole_of self.old }
        ensures laid { IsLaid self.new }
        ensures counted { IsCounted self.new }
        ensures marked { rows_in self.new ≡ (if is_ok result
            then with_status (rows_in self.old) at (row_at (rows_in self.old) other).status else rows_in self.old) }
    {
        let key = late_key(alloc, &self.lines[other])?;
        self.wait_for(at, key);
        Ok(())
    }
}
