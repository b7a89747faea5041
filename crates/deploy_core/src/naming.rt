// The names of tasks.

ghost use Rattle.std.specs.Prelude.{◌≡◌, ◌<◌, ◌++◌, ℕ, IfOk, Some, chars, codes, length, option_map, slice_get};
ghost use Rattle.deploy_cells.specs.Cells.{Position};
ghost use Rattle.plan_cells.specs.Tasks.{Task};
ghost use Rattle.deploy_histories.specs.Legal.{IsAct};
ghost use Rattle.deploy_histories.specs.Outcome.{target_of};
ghost use Rattle.task_standings.specs.Standings.{scope_at};
ghost use Rattle.deploy_core.specs.Names.{name_of};

use arm_value::{OutOfMemory, Text};
use std::alloc::Global;
use task_standings::{Aim, Kind, Standings};

// The one text before the other.
fn joined(alloc: Global, first: &str, last: &str) -> Result<Text, OutOfMemory>
    ensures { IfOk result (λ t. t ≡ chars first.now ++ chars last.now) }
{
    let text = format!(in alloc; "{first}{last}")?;
    Ok(Text::from_string(text))
}

// The word before the position of the scope that the task enters or leaves.
fn scope_name<S: Standings>(
    alloc: Global,
    standings: &S,
    word: &str,
    task: u32,
) -> Result<Text, OutOfMemory>
    requires sound { S.sound standings.now }
    requires scope { (q : Position) × (scope_at (S.planned standings.now) task ≡ Some q) }
    ensures { IfOk result (λ t. option_map (λ q. chars word.now ++ S.titled (S.planned standings.now) q)
        (scope_at (S.planned standings.now) task) ≡ Some t) }
{
    let place = standings.place(alloc, task)?;
    joined(alloc, word, place.as_str())
}

// The id of an aim.
fn id_of(aim: Aim) -> Text
    ensures { result ≡ aim.id }
{
    aim.id
}

// The id of what the task puts or deletes.
fn act_name<S: Standings>(alloc: Global, standings: &S, task: u32) -> Result<Text, OutOfMemory>
    requires sound { S.sound standings.now }
    requires act { (one : Task) × ((slice_get (S.planned standings.now).tasks task ≡ Some one) × IsAct one) }
    ensures { IfOk result (λ t. option_map (λ a. a.id) (target_of (S.planned standings.now) task) ≡ Some t) }
{
    Ok(id_of(standings.aim(alloc, task)?))
}

/// The id of what the task puts or deletes, as it is spelled; else `enter ` or `leave ` and the position of the scope.
pub(crate) fn task_name<S: Standings>(
    alloc: Global,
    standings: &S,
    task: u32,
) -> Result<Text, OutOfMemory>
    requires sound { S.sound standings.now }
    requires within { task < length (S.planned standings.now).tasks }
    ensures { IfOk result (λ t. name_of S.titled (S.planned standings.now) task ≡ Some t) }
{
    match standings.kind(task) {
        Kind::Enter => scope_name(alloc, standings, "enter ", task),
        Kind::Put => act_name(alloc, standings, task),
        Kind::Delete => act_name(alloc, standings, task),
        Kind::Leave => scope_name(alloc, standings, "leave ", task),
    }
}
