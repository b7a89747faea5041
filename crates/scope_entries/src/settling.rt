// The parameters and variables of a scope are told until each has a value, or one of them waits or has none.
ghost use Rattle.std.specs.Prelude.{◌≡◌, ◌<◌, length, IfOk};
ghost use Rattle.point_cells.specs.Symbols.{IsComplete};
ghost use Rattle.point_rows.specs.Rows.{IsFit};
ghost use Rattle.scope_entries.specs.Entries.{AreTold, Goes, AreOwnLines, AreCovered, IsSettling, IsRoundOf};

use crate::keeping::{Turn, tell_line};
use crate::lines::lines_of;
use arm_env::stop::let_go;
use arm_ids::Key;
use arm_value::OutOfMemory;
use point_cells::register::Register;
use point_rows::later::Later;
use std::alloc::Global;

/// Whether the parameters and variables of a scope have values, or what one of them lacks.
#[derive(Drop)]
pub enum Settling {
    /// Each has a value, or none where settling went on past those.
    Settled,
    /// One waits for the state at this key.
    State(Key),
    /// One waits for the cell of this line, which is none of the scope.
    Line(usize),
    /// The one of this line has no value.
    Nothing(usize),
    /// The one of this line is among some that wait for one another.
    Circle(usize),
}

/// What telling each of some lines once comes to.
#[derive(Drop)]
pub enum Round {
    /// These wait for others of the scope; the others have values.
    Left(Vec<usize>),
    /// The scope is not settled.
    Stopped(Settling),
}

// Ends a round; the lines that were left are dropped.
fn stopped(settling: Settling, left: Vec<usize>) -> Round
    ensures { result ≡ Round.Stopped settling }
{
    let_go(left);
    Round::Stopped(settling)
}

// Tells each of the lines once.
fn tell_each(
    alloc: Global,
    register: &Register,
    later: &mut Later,
    frame: usize,
    pending: &[usize],
    on: bool,
) -> Result<Round, OutOfMemory>
    requires complete { IsComplete register.now }
    requires fit { IsFit register.now.table later.old }
    requires told { AreTold register.now.table later.old }
    requires there { frame < length register.now.table.frames.items }
    requires own { AreOwnLines register.now.table frame pending.now }
    ensures goes { Goes register.now.table later.old later.new }
    ensures round { IfOk result (IsRoundOf on register.now.table later.new frame pending.now) }
{
    let mut left = Vec::new(alloc);
    'lines: for at in pending {
        match tell_line(alloc, register, later, frame, *at, on)? {
            Turn::Kept => {}
            Turn::Waiting => left.push(*at)?,
            Turn::Stopped(settling) => return Ok(stopped(settling, left)),
        }
    }
    Ok(Round::Left(left))
}

// Tells the lines until none is left.
fn settle_lines(
    alloc: Global,
    register: &Register,
    later: &mut Later,
    frame: usize,
    lines: Vec<usize>,
    on: bool,
) -> Result<Settling, OutOfMemory>
    requires complete { IsComplete register.now }
    requires fit { IsFit register.now.table later.old }
    requires told { AreTold register.now.table later.old }
    requires there { frame < length register.now.table.frames.items }
    requires own { AreOwnLines register.now.table frame lines.items }
    requires covered { AreCovered on register.now.table later.old frame lines.items }
    ensures goes { Goes register.now.table later.old later.new }
    ensures settling { IfOk result (IsSettling on register.now.table later.new frame) }
{
    let mut pending = lines;
    'rounds: while pending.len() > 0 {
        match tell_each(alloc, register, later, frame, pending.as_slice(), on)? {
            Round::Left(left) => {
                if left.len() == pending.len() {
                    return Ok(Settling::Circle(left[0]));
                }
                pending = left;
            }
            Round::Stopped(settling) => return Ok(settling),
        }
    }
    Ok(Settling::Settled)
}

/// Tells the parameters and variables of a scope, and keeps the value of each that has one by what is known. `on` says
/// that it goes on past those that have none, and keeps this of them.
///
/// An outer scope has none of its own. Lines that have an entry are not told again. A parameter or variable is told
/// once, and once more after each round in which another of the scope got its value.
pub fn settle(
    alloc: Global,
    register: &Register,
    later: &mut Later,
    frame: usize,
    on: bool,
) -> Result<Settling, OutOfMemory>
    requires complete { IsComplete register.now }
    requires fit { IsFit register.now.table later.old }
    requires told { AreTold register.now.table later.old }
    requires there { frame < length register.now.table.frames.items }
    ensures goes { Goes register.now.table later.old later.new }
    ensures settling { IfOk result (IsSettling on register.now.table later.new frame) }
{
    let lines = lines_of(alloc, &register.table, frame)?;
    settle_lines(alloc, register, later, frame, lines, on)
}
