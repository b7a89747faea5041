// What is missing to a reading, where the evaluator stops.
ghost use Rattle.std.specs.Prelude.{◌<◌, length, Option, List};
ghost use Rattle.arm_value.specs.Json.{Json};
ghost use Rattle.arm_env.specs.declared.env.Looping.{Looping};
ghost use Rattle.arm_env.specs.Answer as answer;
ghost use Rattle.arm_env.specs.Cell.{look_of};
ghost use Rattle.arm_env.specs.Look.{Fact, Looking};
ghost use Rattle.reading.specs.Knowledge.{Told, told};
ghost use Rattle.deploy_cells.specs.Cells as cells;
ghost use Rattle.plan_cells.specs.Sites.{named_by_texts};
ghost use Rattle.plan_table.specs.declared.table.Table.{Table};
ghost use Rattle.plan_table.specs.Found.{scope_at};
ghost use Rattle.plan_table.specs.Whole.{whole_of};
ghost use Rattle.plan_sight.specs.Seen.{Lacks, Shows, Stops};
ghost use Rattle.plan_telling.specs.Resolved.{stop_of};
ghost use Rattle.plan_telling.specs.Seats.{seen_in, known_in, texts_of};
ghost use Rattle.plan_telling.specs.Symbols.{IsComplete};
ghost use Rattle.plan_telling.specs.Sources.{followed_in};
ghost use Rattle.point_rows.specs.Rows.{told_now, IsFit};
ghost use Rattle.point_sights.specs.PointSeats.{seat_now};

use arm_env::cell::Cell;
use arm_env::stop::{Stop, let_go};
use arm_ids::{Key, Place};
use arm_value::Text;
use plan_names::look::look_named;
use plan_nested::look::look_deployment;
use plan_sight::lack::Lack;
use plan_telling::register::Register;
use point_rows::later::Later;
use point_rows::look::{look_parameter, look_variable};
use point_rows::outputs::{look_output, look_outputs};
use point_rows::states::look_state;
use std::alloc::Global;

// What is missing to a reading that needs what a look lacks.
fn stopping(lack: Lack) -> Lack
    ensures { (t : Table) (u : Told cells.Cell (Option Fact)) → Lacks t lack u
        → Stops {A = Json} t result (stop_of u) }
{
    match lack {
        Lack::NotThere => Lack::NoValue,
        Lack::NoValue => Lack::NoValue,
        Lack::Line(at) => Lack::Line(at),
        Lack::State(key) => Lack::State(key),
        Lack::OutOfMemory => Lack::OutOfMemory,
    }
}

// What is missing to a reading that needs what was looked up.
fn lack_in<X: Drop>(found: Result<X, Lack>) -> Lack
    ensures { (view : X → Fact) (t : Table) (u : Told cells.Cell (Option Fact)) → Shows view t found u
        → Stops {A = Json} t result (stop_of u) }
{
    match found {
        Ok(found) => {
            let_go(found);
            Lack::NoValue
        }
        Err(lack) => stopping(lack),
    }
}

// What is missing to a reading that needs what a text means.
fn text_lack(
    alloc: Global,
    register: &Register,
    later: &Later,
    frame: usize,
    place: &Place,
    by_names: bool,
    text: &Text,
) -> Lack
    requires complete { IsComplete register.now }
    requires fit { IsFit register.now.table later.now }
    requires there { frame < length register.now.table.frames.items }
    ensures { Stops {A = Json} register.now.table result (stop_of (told_now register.now.table later.now
        (named_by_texts (texts_of by_names) (whole_of register.now.table).template place.now
        (scope_at register.now.table frame).position text.now))) }
{
    if by_names {
        lack_in(look_named(alloc, &register.table, frame, place, text))
    } else {
        Lack::NoValue
    }
}

// What is missing to a reading that needs what an expression sees of a cell.
fn lack_at(
    alloc: Global,
    register: &Register,
    later: &Later,
    frame: usize,
    place: &Place,
    by_names: bool,
    cell: &Cell,
) -> Lack
    requires complete { IsComplete register.now }
    requires fit { IsFit register.now.table later.now }
    requires there { frame < length register.now.table.frames.items }
    ensures { (loops : List Looping) → Stops {A = Json} register.now.table result
        (stop_of (seen_in (seat_now register.now.table later.now frame place.now loops by_names) (look_of cell.now))) }
{
    let table = &register.table;
    match cell {
        Cell::Parameter(name) => lack_in(look_parameter(alloc, table, later, frame, name)),
        Cell::Variable(name) => lack_in(look_variable(alloc, table, later, frame, name)),
        Cell::Output(key, name) => {
            lack_in(look_output(alloc, table, later, frame, place, key, name))
        }
        Cell::State(key) => lack_in(look_state(alloc, later, key)),
        Cell::Named(text) => text_lack(alloc, register, later, frame, place, by_names, text),
        Cell::Deployment(key) => lack_in(look_deployment(alloc, table, frame, place, key)),
        Cell::Outputs(key) => {
            lack_in(look_outputs(alloc, table, later, &register.types, frame, place, key))
        }
    }
}

/// What is missing to a reading at which the evaluator stops, where an expression sees the table so.
pub fn lack_of(
    alloc: Global,
    register: &Register,
    later: &Later,
    frame: usize,
    place: &Place,
    by_names: bool,
    stop: Stop,
) -> Lack
    requires complete { IsComplete register.now }
    requires fit { IsFit register.now.table later.now }
    requires there { frame < length register.now.table.frames.items }
    ensures { (loops : List Looping) (r : Looking Json)
        → answer.Stops stop
        (told (known_in (seat_now register.now.table later.now frame place.now loops by_names)) r)
        → Stops register.now.table result (told_now register.now.table later.now
        (followed_in (seat_now register.now.table later.now frame place.now loops by_names) r)) }
{
    match stop {
        Stop::NoValue => Lack::NoValue,
        Stop::Waits(cell) => {
            let lack = lack_at(alloc, register, later, frame, place, by_names, &cell);
            let_go(cell);
            lack
        }
        Stop::OutOfMemory => Lack::OutOfMemory,
    }
}
