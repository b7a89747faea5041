// The outputs of a scope are told, or what one of them lacks is returned.
ghost use Rattle.std.specs.Prelude.{◌≡◌, ◌<◌, length, List, ℕ, Option, IfOk};
ghost use Rattle.arm_value.specs.Json.{Json};
ghost use Rattle.deploy_cells.specs.Cells.{offered};
ghost use Rattle.plan_cells.specs.Children.{Has};
ghost use Rattle.plan_table.specs.declared.table.Table.{Table};
ghost use Rattle.plan_table.specs.Found.{IsLineOf};
ghost use Rattle.plan_table.specs.Lines.{name_at};
ghost use Rattle.plan_sight.specs.Seen.{Stops};
ghost use Rattle.scope_entries.specs.Symbols.{IsComplete};
ghost use Rattle.point_rows.specs.declared.later.Later.{Later};
ghost use Rattle.point_rows.specs.Rows.{told_now, IsFit};
ghost use Rattle.scope_outputs.specs.Outputs.{names_of, position_of, reading_of, IsNoteOf, IsOffering};

use crate::telling::{Noted, entry_told};
use arm_env::stop::let_go;
use arm_ids::Key;
use arm_value::OutOfMemory;
use plan_sight::lack::Lack;
use point_rows::later::Later;
use scope_entries::declared::output_at;
use scope_entries::register::Register;
use std::alloc::{AllocError, Global};

/// Whether the outputs of a scope are told, or what one of them lacks.
#[derive(Drop)]
pub enum Offering {
    /// Each is told, in the order of the template.
    Told(Vec<Noted>),
    /// One waits for the state at this key.
    State(Key),
    /// One waits for the cell of this line.
    Line(usize),
    /// The one whose condition has this line has no value.
    Nothing(usize),
}

/// What is told of one output.
#[derive(Drop)]
pub enum Note {
    /// It is told.
    Told(Noted),
    /// It lacks something.
    Stopped(Offering),
}

// What is returned for an output that lacks this, by the line of its condition.
fn lacking(lack: Lack, at: usize) -> Result<Offering, OutOfMemory>
    ensures { (t : Table) (l : Later) (f : ℕ) (x : List ℕ) → Has x (names_of t f)
        → IsLineOf t f (offered (position_of t f) x) at
        → Stops {A = Option Json} t lack (told_now t l (reading_of t f x)) → IfOk result (IsOffering t l f) }
{
    match lack {
        Lack::NotThere => Ok(Offering::Nothing(at)),
        Lack::NoValue => Ok(Offering::Nothing(at)),
        Lack::Line(line) => Ok(Offering::Line(line)),
        Lack::State(key) => Ok(Offering::State(key)),
        Lack::OutOfMemory => Err(AllocError),
    }
}

// The output of a number as it is told, by the line of its condition.
fn note_at(
    alloc: Global,
    register: &Register,
    later: &Later,
    frame: usize,
    number: usize,
    at: usize,
) -> Result<Note, OutOfMemory>
    requires complete { IsComplete register.now }
    requires fit { IsFit register.now.table later.now }
    requires there { frame < length register.now.table.frames.items }
    requires number { number < length (names_of register.now.table frame) }
    requires line { IsLineOf register.now.table frame (offered (position_of register.now.table frame)
        (name_at (names_of register.now.table frame) number)) at }
    ensures { IfOk result (IsNoteOf register.now.table later.now frame
        (name_at (names_of register.now.table frame) number)) }
{
    match entry_told(alloc, register, later, frame, number) {
        Ok(entry) => Ok(Note::Told(Noted { at, entry })),
        Err(lack) => match lacking(lack, at) {
            Ok(offering) => Ok(Note::Stopped(offering)),
            Err(refused) => Err(refused),
        },
    }
}

// The output of a number as it is told.
fn note_of(
    alloc: Global,
    register: &Register,
    later: &Later,
    frame: usize,
    number: usize,
) -> Result<Note, OutOfMemory>
    requires complete { IsComplete register.now }
    requires fit { IsFit register.now.table later.now }
    requires there { frame < length register.now.table.frames.items }
    requires number { number < length (names_of register.now.table frame) }
    ensures { IfOk result (IsNoteOf register.now.table later.now frame
        (name_at (names_of register.now.table frame) number)) }
{
    let declared = output_at(register, frame, number);
    match register.table.offered_line(alloc, frame, &declared.name) {
        Ok(Some(at)) => note_at(alloc, register, later, frame, number, at),
        Ok(None) => unreachable!(),
        Err(refused) => Err(refused),
    }
}

/// How many outputs a scope has.
pub fn output_count(register: &Register, frame: usize) -> usize
    requires { frame < length register.now.table.frames.items }
    ensures { result ≡ length (names_of register.now.table frame) }
{
    let outputs = register.table.frames[frame].template.outputs.as_slice();
    outputs.len()
}

// Ends the telling; the outputs that were told are dropped.
fn stopped(offering: Offering, told: Vec<Noted>) -> Offering
    ensures { result ≡ offering }
{
    let_go(told);
    offering
}

/// Tells the outputs of a scope: of each its value, or that its condition is false.
pub fn offer(
    alloc: Global,
    register: &Register,
    later: &Later,
    frame: usize,
) -> Result<Offering, OutOfMemory>
    requires complete { IsComplete register.now }
    requires fit { IsFit register.now.table later.now }
    requires there { frame < length register.now.table.frames.items }
    ensures { IfOk result (IsOffering register.now.table later.now frame) }
{
    let mut told = Vec::new(alloc);
    'outputs: for number in 0..output_count(register, frame) {
        match note_of(alloc, register, later, frame, number)? {
            Note::Told(noted) => told.push(noted)?,
            Note::Stopped(offering) => return Ok(stopped(offering, told)),
        }
    }
    Ok(Offering::Told(told))
}
