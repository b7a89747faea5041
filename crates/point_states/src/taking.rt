// A state is looked up and kept.
ghost use Rattle.std.specs.Prelude.{◌≡◌, List, IfOk, IfErr, option_map};
ghost use Rattle.arm_value.specs.View.{json};
ghost use Rattle.arm_ids.specs.declared.id.ResourceId.{ResourceId};
ghost use Rattle.plan_table.specs.declared.table.Table.{Table};
ghost use Rattle.plan_cells.specs.Desired.{held_state};
ghost use Rattle.plan_numbers.specs.Task.{Task};
ghost use Rattle.deploy_histories.specs.Planned.{Planned};
ghost use Rattle.deploy_histories.specs.Events.{progress, state_in};
ghost use Rattle.point_rows.specs.Rows.{AreIndexed, HasSame};
ghost use Rattle.point_states.specs.Lookups.{Keeps, IsStored, IsAsked, IsTaken};

use arm_ids::{Held, Key};
use arm_value::{OutOfMemory, Value};
use board_history::History;
use plan_numbers::{Numbers, putter_of};
use point_rows::keeping::keep_state;
use point_rows::later::{Later, StateAt};
use std::alloc::Global;
use template_parts::run_out;

/// What came of a look at a state.
#[derive(Clone, Copy, Debug, PartialEq, Eq)]
pub enum Taken {
    /// It is known now.
    Known,
    /// The task of this number gives it, and is not done.
    Undone(u32),
}

// The state that was stored of a task.
fn stored_of(alloc: Global, history: &History, task: u32) -> Result<Option<Value>, OutOfMemory>
    ensures { IfOk result (λ o. option_map json o ≡ state_in ((progress history.now.events).status task)) }
{
    match history.state(task) {
        Some(state) => Ok(Some(state.value().copy(alloc)?)),
        None => Ok(None),
    }
}

// The state that is held at a key.
fn held_at(alloc: Global, held: &Held, key: &Key) -> Result<Option<Value>, OutOfMemory>
    ensures { IfOk result (λ o. option_map json o ≡ held_state held.now key.now) }
{
    match held.find(key) {
        Some(entry) => Ok(Some(entry.state.copy(alloc)?)),
        None => Ok(None),
    }
}

// The state is the one of the key.
fn keep(alloc: Global, later: &mut Later, key: Key, state: Option<Value>) -> Result<(), OutOfMemory>
    requires indexed { AreIndexed later.old }
    ensures indexed { AreIndexed later.new }
    ensures kept { IfOk result (λ _. Keeps key (option_map json state) later.old later.new) }
    ensures unchanged { IfErr result (λ _. HasSame later.old later.new) }
{
    keep_state(alloc, later, StateAt { key, state })
}

// Keeps the state that a task stored at the key, if it is done.
fn take_stored(
    alloc: Global,
    history: &History,
    later: &mut Later,
    key: Key,
    task: u32,
) -> Result<Taken, OutOfMemory>
    requires indexed { AreIndexed later.old }
    ensures indexed { AreIndexed later.new }
    ensures taken { IfOk result (IsStored (progress history.now.events) task key later.old later.new) }
    ensures unchanged { IfErr result (λ _. HasSame later.old later.new) }
{
    if !history.is_done(task) {
        return Ok(Taken::Undone(task));
    }
    match stored_of(alloc, history, task) {
        Ok(state) => {
            keep(alloc, later, key, state)?;
            Ok(Taken::Known)
        }
        Err(_) => run_out(key),
    }
}

// Keeps the state that is held at the key.
fn take_held(alloc: Global, held: &Held, later: &mut Later, key: Key) -> Result<(), OutOfMemory>
    requires indexed { AreIndexed later.old }
    ensures indexed { AreIndexed later.new }
    ensures kept { IfOk result (λ _. Keeps key (held_state held.now key) later.old later.new) }
    ensures unchanged { IfErr result (λ _. HasSame later.old later.new) }
{
    match held_at(alloc, held, &key) {
        Ok(state) => keep(alloc, later, key, state),
        Err(_) => run_out(key),
    }
}

/// Looks the state at a key up at the point after a history: as it was stored, where a task puts it, else as it is
/// held. It is kept then. After `OutOfMemory` nothing more is known.
pub fn take_state(
    alloc: Global,
    numbers: &Numbers,
    held: &Held,
    history: &History,
    later: &mut Later,
    key: Key,
) -> Result<Taken, OutOfMemory>
    requires indexed { AreIndexed later.old }
    ensures indexed { AreIndexed later.new }
    ensures taken { (x : Planned) (t : Table) (us : List Task) (ks : List ResourceId)
        → IsAsked x history.now.events held.now t us ks numbers.now
        → IfOk result (IsTaken x (progress history.now.events) key later.old later.new) }
    ensures unchanged { IfErr result (λ _. HasSame later.old later.new) }
{
    match putter_of(alloc, numbers, &key) {
        Ok(Some(task)) => take_stored(alloc, history, later, key, task),
        Ok(None) => {
            take_held(alloc, held, later, key)?;
            Ok(Taken::Known)
        }
        Err(_) => run_out(key),
    }
}
