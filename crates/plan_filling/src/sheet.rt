// A sheet: the cells that are listed so far, and what is known of each.
ghost use Rattle.std.specs.Prelude.{◌≡◌, ℕ, ◌<◌, ◌≤◌, ◌^◌, List, map, ◌++◌, length, IfOk, IfErr, is_ok, if◌then◌else◌};
ghost use Rattle.arm_value.specs.View.{json};
ghost use Rattle.plan_cells.specs.Meaning.{Deployment};
ghost use Rattle.plan_cells.specs.Children.{children};

use arm_ids::Key;
use arm_value::{OutOfMemory, Value};
use std::alloc::{AllocError, AllocFailed, Global};
use template_parts::Which;

/// How far a cell is.
#[derive(Clone, Copy)]
pub enum Stage {
    /// Not begun.
    New,
    /// Begun, and what it waits for is on the way.
    Open,
    /// It has a value, or none.
    Finished,
    /// It waits for the state of a resource.
    Late,
}

/// What a cell is by what is known.
#[derive(Drop)]
pub enum Answer {
    /// It has this value.
    Value(Value),
    /// It has no value, or is not there.
    Empty,
    /// It waits for the cell at this place.
    Waits(usize),
    /// It waits for the state at this key.
    State(Key),
}

/// Why a sheet is not filled further.
#[derive(Drop)]
pub enum Halt {
    /// This quantity has this number, which is beyond its limit.
    Limit(Which, u64),
    /// Out of memory.
    OutOfMemory,
}

impl From<AllocError> for Halt {
    ghost use Rattle.plan_filling.specs.declared.sheet.Halt.TheVariants.{OutOfMemory};

    ghost from_gives = { λ _ e. e ≡ OutOfMemory };

    fn from(_refused: AllocError) -> Halt {
        Halt::OutOfMemory
    }
}

impl<T: Drop> From<AllocFailed<T>> for Halt {
    ghost use Rattle.plan_filling.specs.declared.sheet.Halt.TheVariants.{OutOfMemory};

    ghost from_gives = { λ _ e. e ≡ OutOfMemory };

    fn from(_refused: AllocFailed<T>) -> Halt {
        Halt::OutOfMemory
    }
}

/// The cells, each at its place, and what is known of them. A cell that gets a value opens others, which are listed
/// after all that are there.
pub trait Sheet {
    ghost use Rattle.plan_filling.specs.Rows.{Row, row_at, with_status, fresh, stage_of, IsUnfinished, IsWaiting};
    ghost use Rattle.plan_filling.specs.Rows.{Open, Empty, Late, with_value};
    ghost use Rattle.plan_filling.specs.Sound.{Sound, Tells};
    ghost use Rattle.plan_filling.specs.Limits.{IsHalt};

    /// The cells, and how far each is.
    ghost rows: { Self → List Row };
    /// What is deployed.
    ghost whole: { Self → Deployment };
    /// How the cells are kept, so that each is found at its place.
    ghost laid: { Self → Type 0 };

    /// The number of cells.
    fn len(&self) -> usize
        ensures { result ≡ length (rows self.now) };

    /// How far the cell at a place is.
    fn stage(&self, at: usize) -> Stage
        requires { at < length (rows self.now) }
        ensures { result ≡ stage_of (row_at (rows self.now) at).status };

    /// What the cell is by what is known.
    fn tell(&self, alloc: Global, at: usize) -> Result<Answer, OutOfMemory>
        requires listed { at < length (rows self.now) }
        requires sound { Sound (whole self.now) (rows self.now) }
        requires laid { laid self.now }
        ensures { IfOk result (Tells (whole self.now) (rows self.now) (row_at (rows self.now) at).cell) };

    /// Begins a cell.
    fn begin(&mut self, at: usize)
        requires listed { at < length (rows self.old) }
        requires unfinished { IsUnfinished (row_at (rows self.old) at).status }
        requires laid { laid self.old }
        ensures same { whole self.new ≡ whole self.old }
        ensures laid { laid self.new }
        ensures marked { rows self.new ≡ with_status (rows self.old) at Open };

    /// Leaves a cell without a value.
    fn leave_empty(&mut self, at: usize)
        requires listed { at < length (rows self.old) }
        requires unfinished { IsUnfinished (row_at (rows self.old) at).status }
        requires laid { laid self.old }
        ensures same { whole self.new ≡ whole self.old }
        ensures laid { laid self.new }
        ensures marked { rows self.new ≡ with_status (rows self.old) at Empty };

    /// Marks a cell as one that waits for the state at a key.
    fn wait_for(&mut self, at: usize, key: Key)
        requires listed { at < length (rows self.old) }
        requires unfinished { IsUnfinished (row_at (rows self.old) at).status }
        requires laid { laid self.old }
        ensures same { whole self.new ≡ whole self.old }
        ensures laid { laid self.new }
        ensures marked { rows self.new ≡ with_status (rows self.old) at (Late key) };

    /// Marks a cell as one that waits for the same state as another, which is late. The sheet is unchanged after
    /// `OutOfMemory`.
    fn wait_as(&mut self, alloc: Global, at: usize, other: usize) -> Result<(), OutOfMemory>
        requires listed { at < length (rows self.old) }
        requires other_listed { other < length (rows self.old) }
        requires late { IsWaiting (row_at (rows self.old) other).status }
        requires unfinished { IsUnfinished (row_at (rows self.old) at).status }
        requires laid { laid self.old }
        ensures same { whole self.new ≡ whole self.old }
        ensures laid { laid self.new }
        ensures marked { rows self.new ≡ (if is_ok result
            then with_status (rows self.old) at (row_at (rows self.old) other).status else rows self.old) };

    /// Gives the cell its value, and lists the cells that this opens, unless instances would be too many.
    fn fill(&mut self, alloc: Global, at: usize, value: Value) -> Result<(), Halt>
        requires listed { at < length (rows self.old) }
        requires sound { Sound (whole self.old) (rows self.old) }
        requires unfinished { IsUnfinished (row_at (rows self.old) at).status }
        requires laid { laid self.old }
        ensures same { whole self.new ≡ whole self.old }
        ensures laid { IfOk result (λ _. laid self.new) }
        ensures filled { IfOk result (λ _. rows self.new ≡ with_status (rows self.old) at (with_value (json value))
            ++ map fresh (children (whole self.old) (row_at (rows self.old) at).cell (json value))) }
        ensures few { IfOk result (λ _. length (rows self.new) ≤ 2 ^ 32) }
        ensures halted { IfErr result (IsHalt (rows self.old) (row_at (rows self.old) at).cell (json value)) };
}
