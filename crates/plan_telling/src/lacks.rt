// What is missing to a reading, where the evaluator stops.
ghost use Rattle.std.specs.Prelude.{◌<◌, length, Option, List};
ghost use Rattle.arm_value.specs.Json.{Json};
ghost use Rattle.arm_env.specs.declared.env.Looping.{Looping};
ghost use Rattle.arm_env.specs.Answer as answer;
ghost use Rattle.arm_env.specs.Cell.{look_of};
ghost use Rattle.arm_env.specs.Look.{Fact, Looking};
ghost use Rattle.reading.specs.Knowledge.{Told, told, waits};
ghost use Rattle.deploy_cells.specs.Cells as cells;
ghost use Rattle.deploy_cells.specs.Cells.{state};
ghost use Rattle.plan_sight.specs.Sites.{named_by_texts};
ghost use Rattle.plan_table.specs.declared.table.Table.{Table};
ghost use Rattle.plan_table.specs.Found.{scope_at};
ghost use Rattle.plan_table.specs.Whole.{whole_of};
ghost use Rattle.plan_sight.specs.Ready.{told_in};
ghost use Rattle.plan_sight.specs.Seen.{Lacks, Shows, Stops};
ghost use Rattle.plan_sights.specs.Resolved.{stop_of};
ghost use Rattle.plan_sights.specs.Seats.{seat_of, seen_in, known_in, texts_of};
ghost use Rattle.plan_telling.specs.Symbols.{IsComplete};
ghost use Rattle.plan_telling.specs.Sources.{followed_in};

use crate::register::Register;
use arm_env::cell::Cell;
use arm_env::stop::{Stop, let_go};
use arm_ids::{Key, Place};
use arm_value::Text;
use plan_places::look::{look_deployment, look_output};
use plan_places::outputs::look_outputs;
use plan_sight::lack::Lack;
use plan_sight::look::{look_parameter, look_variable};
use plan_sights::look::look_named;
use std::alloc::Global;

// What is missing to a reading that needs what a look lacks.
fn stopping(lack: Lack) -> Lack
    ensures { (t : Table) (u : Told cells.Cell (Option Fact)) → Lacks t lack u
        → Stops {A = Json} t result (stop_of u) }
{
    match lack {
        Lack::NotThere => Lack::NoValue,
        Lack::NoValue => Lack::NoValue,
        Lack::Line(at) => Lack::Line(at),
        Lack::State(key) => Lack::State(key),
        Lack::OutOfMemory => Lack::OutOfMemory,
    }
}

// What is missing to a reading that needs what was looked up.
fn lack_in<X: Drop>(found: Result<X, Lack>) -> Lack
    ensures { (view : X → Fact) (t : Table) (u : Told cells.Cell (Option Fact)) → Shows view t found u
        → Stops {A = Json} t result (stop_of u) }
{
    match found {
        Ok(found) => {
            let_go(found);
            Lack::NoValue
        }
        Err(lack) => stopping(lack),
    }
}

// What is missing to a reading that needs the state at a key.
fn state_lack(alloc: Global, key: &Key) -> Lack
    ensures { (t : Table) → Stops {A = Json} t result (waits (state key.now)) }
{
    match key.copy(alloc) {
        Ok(key) => Lack::State(key),
        Err(_) => Lack::OutOfMemory,
    }
}

// What is missing to a reading that needs what a text means.
fn text_lack(
    alloc: Global,
    register: &Register,
    frame: usize,
    place: &Place,
    by_names: bool,
    text: &Text,
) -> Lack
    requires complete { IsComplete register.now }
    requires there { frame < length register.now.table.frames.items }
    ensures { Stops {A = Json} register.now.table result (stop_of (told_in register.now.table
        (named_by_texts (texts_of by_names) (whole_of register.now.table).template place.now
        (scope_at register.now.table frame).position text.now))) }
{
    if by_names {
        lack_in(look_named(alloc, &register.table, frame, place, text))
    } else {
        Lack::NoValue
    }
}

// What is missing to a reading that needs what an expression sees of a cell.
fn lack_at(
    alloc: Global,
    register: &Register,
    frame: usize,
    place: &Place,
    by_names: bool,
    cell: &Cell,
) -> Lack
    requires complete { IsComplete register.now }
    requires there { frame < length register.now.table.frames.items }
    ensures { (loops : List Looping) → Stops {A = Json} register.now.table result
        (stop_of (seen_in (seat_of register.now.table frame place.now loops by_names) (look_of cell.now))) }
{
    let table = &register.table;
    match cell {
        Cell::Parameter(name) => lack_in(look_parameter(alloc, table, frame, name)),
        Cell::Variable(name) => lack_in(look_variable(alloc, table, frame, name)),
        Cell::Output(key, name) => lack_in(look_output(alloc, table, frame, place, key, name)),
        Cell::State(key) => state_lack(alloc, key),
        Cell::Named(text) => text_lack(alloc, register, frame, place, by_names, text),
        Cell::Deployment(key) => lack_in(look_deployment(alloc, table, frame, place, key)),
        Cell::Outputs(key) => {
            lack_in(look_outputs(alloc, table, &register.types, frame, place, key))
        }
    }
}

/// What is missing to a reading at which the evaluator stops, where an expression sees the table so.
pub fn lack_of(
    alloc: Global,
    register: &Register,
    frame: usize,
    place: &Place,
    by_names: bool,
    stop: Stop,
) -> Lack
    requires complete { IsComplete register.now }
    requires there { frame < length register.now.table.frames.items }
    ensures { (loops : List Looping) (r : Looking Json)
        → answer.Stops stop
        (told (known_in (seat_of register.now.table frame place.now loops by_names)) r)
        → Stops register.now.table result (told_in register.now.table
        (followed_in (seat_of register.now.table frame place.now loops by_names) r)) }
{
    match stop {
        Stop::NoValue => Lack::NoValue,
        Stop::Waits(cell) => {
            let lack = lack_at(alloc, register, frame, place, by_names, &cell);
            let_go(cell);
            lack
        }
        Stop::OutOfMemory => Lack::OutOfMemory,
    }
}
