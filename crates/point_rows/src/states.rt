// The states that are known.
ghost use Rattle.std.specs.Prelude.{IfOk, option_map};
ghost use Rattle.arm_value.specs.View.{json};
ghost use Rattle.arm_env.specs.Look.{a_value};
ghost use Rattle.deploy_cells.specs.Cells.{state};
ghost use Rattle.plan_cells.specs.Sites.{value_of};
ghost use Rattle.plan_table.specs.declared.table.Table.{Table};
ghost use Rattle.plan_sight.specs.Seen.{Shows};
ghost use Rattle.point_rows.specs.Rows.{told_now, AreIndexed, IsFoundState, IsMissing};

use crate::later::{Later, StateAt};
use arm_ids::Key;
use arm_value::{OutOfMemory, Value};
use key_tags::key_tag;
use plan_sight::lack::Lack;
use std::alloc::Global;
use tag_places::first_place;

/// The state at a key, if it is among those that are known.
pub fn find_state<'l>(
    alloc: Global,
    later: &'l Later,
    key: &Key,
) -> Result<Option<&'l StateAt>, OutOfMemory>
    requires { AreIndexed later.now }
    ensures { IfOk result (λ o. IsFoundState later.now.states.items key.now (option_map (λ s. s.now) o)) }
{
    let tag = key_tag(alloc, key)?;
    match first_place(&later.places, &tag) {
        Some(place) => Ok(Some(&later.states[place])),
        None => Ok(None),
    }
}

// The key again, as what is not known.
fn missing(alloc: Global, key: &Key) -> Lack
    ensures { IsMissing result key.now }
{
    match key.copy(alloc) {
        Ok(key) => Lack::State(key),
        Err(_) => Lack::OutOfMemory,
    }
}

/// What the state at a key has.
pub fn look_state<'l>(alloc: Global, later: &'l Later, key: &Key) -> Result<&'l Value, Lack>
    requires { AreIndexed later.now }
    ensures { (t : Table) → Shows (λ v. a_value (json v.now)) t result (told_now t later.now (value_of (state
        key.now))) }
{
    match find_state(alloc, later, key) {
        Ok(Some(known)) => match &known.state {
            Some(value) => Ok(value),
            None => Err(Lack::NotThere),
        },
        Ok(None) => Err(missing(alloc, key)),
        Err(_) => Err(Lack::OutOfMemory),
    }
}
