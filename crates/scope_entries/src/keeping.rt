// A parameter or a variable is told once, and its value is kept.
ghost use Rattle.std.specs.Prelude.{◌≡◌, ◌<◌, length, true, false, IfOk};
ghost use Rattle.plan_table.specs.Lines.{line_at};
ghost use Rattle.plan_sight.specs.Ready.{IsReady};
ghost use Rattle.point_cells.specs.Symbols.{IsComplete};
ghost use Rattle.point_rows.specs.declared.later.Entry.TheVariants.{Away, Missing};
ghost use Rattle.point_rows.specs.Rows.{entry_at, IsFit};
ghost use Rattle.point_knowledge.specs.Steps.{AddsEntry, AddsValue};
ghost use Rattle.scope_entries.specs.Entries.{line_cell, kept_turn, nothing_turn, is_own_spot, AreTold, Goes};
ghost use Rattle.scope_entries.specs.Entries.{IsOwnLine};
ghost use Rattle.scope_entries.specs.Entries.{IsAnswerNow, IsTurn};

use crate::answer::entry_told;
use crate::settling::Settling;
use arm_value::{OutOfMemory, Value};
use plan_filling::sheet::Answer;
use plan_table::line::Spot;
use plan_table::table::Table;
use point_cells::register::Register;
use point_rows::later::{Entry, Later};
use std::alloc::Global;

/// What telling a line once comes to.
#[derive(Drop)]
pub enum Turn {
    /// Its value is kept.
    Kept,
    /// It waits for another line of its scope.
    Waiting,
    /// The scope is not settled.
    Stopped(Settling),
}

// Whether the line is that of a parameter or a variable of the scope.
fn is_own(table: &Table, frame: usize, at: usize) -> bool
    requires { at < length table.now.lines.items }
    ensures { result ≡ is_own_spot frame (line_at table.now.lines.items at).spot }
{
    match table.lines[at].spot {
        Spot::Parameter(of, _) => of == frame,
        Spot::Variable(of, _) => of == frame,
        _ => false,
    }
}

// What it comes to that a line has no value.
fn without_value(at: usize, on: bool) -> Turn
    ensures { result ≡ nothing_turn on at }
{
    if on {
        Turn::Kept
    } else {
        Turn::Stopped(Settling::Nothing(at))
    }
}

// What the line comes to, if it has an entry.
fn kept(later: &Later, at: usize, on: bool) -> Option<Turn>
    requires { at < length later.now.entries.items }
    ensures { result ≡ kept_turn on (entry_at later.now.entries.items at) at }
{
    match &later.entries[at] {
        Entry::Value(_) => Some(Turn::Kept),
        Entry::Away => Some(without_value(at, on)),
        Entry::Missing => None,
    }
}

// Keeps the value of a line.
fn keep(later: &mut Later, at: usize, value: Value)
    requires { at < length later.old.entries.items }
    ensures adds { AddsValue at value later.old later.new }
    ensures places { later.new.places ≡ later.old.places }
{
    later.entries[at] = Entry::Value(value);
}

// Keeps that a line has no value, where settling goes on.
fn keep_absence(later: &mut Later, at: usize, on: bool)
    requires { at < length later.old.entries.items }
    ensures adds { on ≡ true → AddsEntry at Away later.old later.new }
    ensures unchanged { on ≡ false → later.new ≡ later.old }
    ensures places { later.new.places ≡ later.old.places }
{
    if on {
        later.entries[at] = Entry::Away;
    }
}

// What it comes to that the line waits for the other.
fn waiting(table: &Table, frame: usize, other: usize) -> Turn
    requires { other < length table.now.lines.items }
    ensures own { is_own_spot frame (line_at table.now.lines.items other).spot ≡ true → result ≡ Turn.Waiting }
    ensures other { is_own_spot frame (line_at table.now.lines.items other).spot ≡ false
        → result ≡ Turn.Stopped (Settling.Line other) }
{
    if is_own(table, frame, other) {
        Turn::Waiting
    } else {
        Turn::Stopped(Settling::Line(other))
    }
}

// Keeps the value that a line was told to have, or returns why it has none yet.
fn keep_answer(
    table: &Table,
    later: &mut Later,
    frame: usize,
    at: usize,
    on: bool,
    answer: Answer,
) -> Turn
    requires ready { IsReady table.now }
    requires fit { IsFit table.now later.old }
    requires told { AreTold table.now later.old }
    requires there { frame < length table.now.frames.items }
    requires own { IsOwnLine table.now frame at }
    requires vacant { entry_at later.old.entries.items at ≡ Missing }
    requires answer { IsAnswerNow table.now later.old (line_cell table.now at) answer }
    ensures goes { Goes table.now later.old later.new }
    ensures turned { IsTurn on table.now later.old later.new frame at result }
{
    match answer {
        Answer::Value(value) => {
            keep(later, at, value);
            Turn::Kept
        }
        Answer::Empty => {
            keep_absence(later, at, on);
            without_value(at, on)
        }
        Answer::State(key) => Turn::Stopped(Settling::State(key)),
        Answer::Waits(other) => waiting(table, frame, other),
    }
}

// Tells the parameter or variable of a line that has no entry, and keeps its value.
fn tell_open(
    alloc: Global,
    register: &Register,
    later: &mut Later,
    frame: usize,
    at: usize,
    on: bool,
) -> Result<Turn, OutOfMemory>
    requires complete { IsComplete register.now }
    requires fit { IsFit register.now.table later.old }
    requires told { AreTold register.now.table later.old }
    requires there { frame < length register.now.table.frames.items }
    requires own { IsOwnLine register.now.table frame at }
    requires vacant { entry_at later.old.entries.items at ≡ Missing }
    ensures goes { Goes register.now.table later.old later.new }
    ensures turned { IfOk result (IsTurn on register.now.table later.old later.new frame at) }
{
    let answer = entry_told(alloc, register, later, at)?;
    Ok(keep_answer(&register.table, later, frame, at, on, answer))
}

/// Tells the parameter or variable of a line, if it has no entry, and keeps its value. Where settling goes on past
/// those that have none, it keeps that too.
pub fn tell_line(
    alloc: Global,
    register: &Register,
    later: &mut Later,
    frame: usize,
    at: usize,
    on: bool,
) -> Result<Turn, OutOfMemory>
    requires complete { IsComplete register.now }
    requires fit { IsFit register.now.table later.old }
    requires told { AreTold register.now.table later.old }
    requires there { frame < length register.now.table.frames.items }
    requires own { IsOwnLine register.now.table frame at }
    ensures goes { Goes register.now.table later.old later.new }
    ensures turned { IfOk result (IsTurn on register.now.table later.old later.new frame at) }
{
    match kept(later, at, on) {
        Some(turn) => Ok(turn),
        None => tell_open(alloc, register, later, frame, at, on),
    }
}
