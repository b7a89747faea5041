// The place of the expressions of a scope.
ghost use Rattle.std.specs.Prelude.{◌≡◌, ◌<◌, [], length, get_or, IfOk};
ghost use Rattle.arm_value.specs.View.{json};
ghost use Rattle.reading.specs.Reading.{done, read, continued};
ghost use Rattle.deploy_cells.specs.Cells.{name};
ghost use Rattle.plan_sight.specs.Scopes.{owner, own_place, with_deployment};
ghost use Rattle.plan_table.specs.Opened.{step_of};
ghost use Rattle.plan_table.specs.Whole.{whole_of};
ghost use Rattle.plan_table.specs.Found.{scope_at};
ghost use Rattle.plan_sight.specs.Ready.{IsReady, told_in};
ghost use Rattle.plan_sight.specs.Seen.{Yields};
ghost use Rattle.plan_places.specs.Places.{Forms, IsNamed};

use arm_ids::Place;
use arm_value::{OutOfMemory, Text, Value};
use plan_sight::lack::Lack;
use plan_sight::look::read_at;
use plan_table::frame::Instance;
use plan_table::table::Table;
use std::alloc::Global;

// The place, with another name of the deployment.
fn with_name(alloc: Global, place: &Place, name: &Text) -> Result<Place, OutOfMemory>
    ensures { IfOk result (λ p. p ≡ record place.now { deployment = name.now }) }
{
    let mut copy = place.copy(alloc)?;
    copy.deployment = name.copy(alloc)?;
    Ok(copy)
}

// The place with the value of a name. A name that is no text gives none.
fn place_named(alloc: Global, place: &Place, name: &Value) -> Result<Place, Lack>
    ensures { Forms (with_deployment place.now (json name.now)) result }
{
    match name {
        Value::Text(name) => match with_name(alloc, place, name) {
            Ok(place) => Ok(place),
            Err(_) => Err(Lack::OutOfMemory),
        },
        _ => Err(Lack::NoValue),
    }
}

// The place of the scope that an instance of a scope opened.
fn place_inside(
    alloc: Global,
    table: &Table,
    around: usize,
    instance: &Instance,
) -> Result<Place, Lack>
    requires ready { IsReady table.now }
    requires there { around < length table.now.frames.items }
    requires named { IsNamed table.now around (step_of instance.now) }
    ensures { Yields (λ p. p) table.now result (told_in table.now
        (continued (read (name (scope_at table.now around).position (step_of instance.now)))
        (λ n. done (with_deployment table.now.place.now n)))) }
{
    match table.name_line(alloc, around, instance.resource, instance.copy) {
        Ok(Some(at)) => match read_at(table, at) {
            Ok(name) => place_named(alloc, table.place, name),
            Err(lack) => Err(lack),
        },
        Ok(None) => unreachable!(),
        Err(_) => Err(Lack::OutOfMemory),
    }
}

// The place of the root.
fn root_place(alloc: Global, table: &Table) -> Result<Place, Lack>
    ensures { Yields (λ p. p) table.now result (told_in table.now (own_place table.now.place.now [])) }
{
    match table.place.copy(alloc) {
        Ok(place) => Ok(place),
        Err(_) => Err(Lack::OutOfMemory),
    }
}

// The innermost instance of a position.
fn first_of(position: &[Instance]) -> &Instance
    requires { 0 < length position.now }
    ensures { result.now ≡ get_or position.now 0 result.now }
{
    &position[0]
}

// The place of a scope that has its own parameters.
fn place_at(alloc: Global, table: &Table, frame: usize) -> Result<Place, Lack>
    requires ready { IsReady table.now }
    requires there { frame < length table.now.frames.items }
    ensures { Yields (λ p. p) table.now result
        (told_in table.now (own_place table.now.place.now (scope_at table.now frame).position)) }
{
    let scope = &table.frames[frame];
    let position = scope.position.as_slice();
    if position.len() == 0 {
        root_place(alloc, table)
    } else {
        place_inside(alloc, table, scope.around, first_of(position))
    }
}

/// The place of the expressions of a scope: that of the nearest scope outwards that is not outer.
pub fn place_of(alloc: Global, table: &Table, frame: usize) -> Result<Place, Lack>
    requires ready { IsReady table.now }
    requires there { frame < length table.now.frames.items }
    ensures { Yields (λ p. p) table.now result (told_in table.now (own_place table.now.place.now
        (owner (whole_of table.now).template (scope_at table.now frame).position))) }
{
    let owner = table.frames[frame].owner;
    place_at(alloc, table, owner)
}
