// The numbers of tasks are listed.
ghost use Rattle.std.specs.Prelude.{◌≡◌, ◌≤◌, ◌++◌, ◌∷◌, [], List, Option, Some, None, Ok, IfOk, MatchOption, Decides};
ghost use Rattle.std.specs.Prelude.{◌&&◌, map, length};
ghost use Rattle.arm_ids.specs.declared.id.ResourceId.{ResourceId};
ghost use Rattle.tag_places.specs.Places.{Tag, ArePlaces};
ghost use Rattle.history_plans.specs.Task.{Task};
ghost use Rattle.plan_numbers.specs.Numbers.{puts_in, enter_tag, leave_tag, HaveOwnKeys, AreOfScopes, AreNumbers};
ghost use Rattle.plan_numbers.specs.Steps.{IsNumbered, AddsKey, AreListed};

use crate::checking::{are_few, are_of_table, have_places};
use crate::looking::scope_tag;
use crate::numbers::Numbers;
use arm_ids::Key;
use arm_value::OutOfMemory;
use history_plans::{Plan, Task};
use key_tags::key_tag;
use std::alloc::Global;
use tag_places::{Places, add_place, first_place, no_places};
use template_parts::run_out;

// The task of the number puts at the key, where no other does; else false.
fn add_key(
    alloc: Global,
    places: &mut Places,
    key: &Key,
    number: usize,
) -> Result<bool, OutOfMemory>
    ensures { (os : List (Option Tag)) → ArePlaces places.old os → number ≡ length os
        → IfOk result (AddsKey os (Some key.now) places.new) }
{
    let tag = key_tag(alloc, key)?;
    match first_place(places, &tag) {
        Some(_) => Ok(false),
        None => {
            add_place(places, tag, number)?;
            Ok(true)
        }
    }
}

// Numbers a task, where so many before it put: how many put with it; none where another puts at its key.
fn number_put(
    alloc: Global,
    places: &mut Places,
    keys: &[Key],
    task: &Task,
    used: usize,
    number: usize,
) -> Result<Option<usize>, OutOfMemory>
    requires { used ≤ number }
    ensures { (us : List Task) → IsNumbered places.old us keys.now → number ≡ length us → used ≡ puts_in us
        → IfOk result (λ o. MatchOption o (HaveOwnKeys (us ++ task.now ∷ []) keys.now → ⊥)
        (λ n. IsNumbered places.new (us ++ task.now ∷ []) keys.now × (n ≡ puts_in (us ++ task.now ∷ [])))) }
{
    match task {
        Task::Put(_, _, _) => match keys.get(used) {
            Some(key) => if add_key(alloc, places, key, number)? {
                Ok(Some(used + 1))
            } else {
                Ok(None)
            },
            None => Ok(None),
        },
        Task::Enter(_) => Ok(Some(used)),
        Task::Leave(_) => Ok(Some(used)),
        Task::Delete(_) => Ok(Some(used)),
    }
}

// The numbers of puts by their keys; none where two put at one key.
fn number_puts(alloc: Global, tasks: &[Task], keys: &[Key]) -> Result<Option<Places>, OutOfMemory>
    ensures { IfOk result (λ o. MatchOption o (HaveOwnKeys tasks.now keys.now → ⊥)
        (λ m. IsNumbered m tasks.now keys.now)) }
{
    let mut places = no_places(alloc);
    let mut used = 0;
    'tasks: for number in 0..tasks.len() {
        match number_put(alloc, &mut places, keys, &tasks[number], used, number) {
            Ok(Some(next)) => used = next,
            Ok(None) => return give_up(places),
            Err(_) => return run_out(places),
        }
    }
    Ok(Some(places))
}

// None; the places are dropped.
fn give_up(_places: Places) -> Result<Option<Places>, OutOfMemory>
    ensures { result ≡ Ok None }
{
    Ok(None)
}

// Numbers a task that enters a scope.
fn number_enter(
    alloc: Global,
    places: &mut Places,
    task: &Task,
    number: usize,
) -> Result<(), OutOfMemory>
    ensures { (os : List (Option Tag)) → ArePlaces places.old os → number ≡ length os
        → IfOk result (λ _. ArePlaces places.new (os ++ enter_tag task.now ∷ [])) }
{
    match task {
        Task::Enter(frame) => {
            let tag = scope_tag(alloc, *frame)?;
            add_place(places, tag, number)
        }
        Task::Put(_, _, _) => Ok(()),
        Task::Leave(_) => Ok(()),
        Task::Delete(_) => Ok(()),
    }
}

// The numbers of the tasks that enter scopes.
fn number_enters(alloc: Global, tasks: &[Task]) -> Result<Places, OutOfMemory>
    ensures { IfOk result (λ m. ArePlaces m (map enter_tag tasks.now)) }
{
    let mut places = no_places(alloc);
    'tasks: for number in 0..tasks.len() {
        match number_enter(alloc, &mut places, &tasks[number], number) {
            Ok(()) => {}
            Err(_) => return run_out(places),
        }
    }
    Ok(places)
}

// Numbers a task that leaves a scope.
fn number_leave(
    alloc: Global,
    places: &mut Places,
    task: &Task,
    number: usize,
) -> Result<(), OutOfMemory>
    ensures { (os : List (Option Tag)) → ArePlaces places.old os → number ≡ length os
        → IfOk result (λ _. ArePlaces places.new (os ++ leave_tag task.now ∷ [])) }
{
    match task {
        Task::Leave(frame) => {
            let tag = scope_tag(alloc, *frame)?;
            add_place(places, tag, number)
        }
        Task::Put(_, _, _) => Ok(()),
        Task::Enter(_) => Ok(()),
        Task::Delete(_) => Ok(()),
    }
}

// The numbers of the tasks that leave scopes.
fn number_leaves(alloc: Global, tasks: &[Task]) -> Result<Places, OutOfMemory>
    ensures { IfOk result (λ m. ArePlaces m (map leave_tag tasks.now)) }
{
    let mut places = no_places(alloc);
    'tasks: for number in 0..tasks.len() {
        match number_leave(alloc, &mut places, &tasks[number], number) {
            Ok(()) => {}
            Err(_) => return run_out(places),
        }
    }
    Ok(places)
}

// The numbers of all, where no two put at one key.
fn number_all(alloc: Global, tasks: &[Task], keys: &[Key]) -> Result<Option<Numbers>, OutOfMemory>
    ensures { IfOk result (λ o. MatchOption o (HaveOwnKeys tasks.now keys.now → ⊥)
        (λ n. AreListed tasks.now keys.now n)) }
{
    let enters = number_enters(alloc, tasks)?;
    let leaves = match number_leaves(alloc, tasks) {
        Ok(leaves) => leaves,
        Err(_) => return run_out(enters),
    };
    match number_puts(alloc, tasks, keys) {
        Ok(Some(puts)) => Ok(Some(Numbers {
            puts,
            enters,
            leaves,
        })),
        Ok(None) => Ok(None),
        Err(_) => run_out((enters, leaves)),
    }
}

// Whether all four are true.
fn are_true(first: bool, second: bool, third: bool, fourth: bool) -> bool
    ensures { result ≡ (first && (second && (third && fourth))) }
{
    first && second && third && fourth
}

// Whether each scope of the table is entered and left, and each task is of the table.
fn is_whole(alloc: Global, plan: &Plan, numbers: &Numbers) -> Result<bool, OutOfMemory>
    ensures { (us : List Task) (ks : List ResourceId) → AreListed us ks numbers.now → us ≡ plan.now.tasks.items
        → IfOk result (λ b. Decides b (AreOfScopes plan.now.start.register.table us ks)) }
{
    let table = &plan.start.register.table;
    let count = table.frames.len();
    let entered = have_places(alloc, &numbers.enters, count)?;
    let left = have_places(alloc, &numbers.leaves, count)?;
    let tasks = plan.tasks.as_slice();
    let of_table = are_of_table(table, tasks);
    let few = are_few(tasks);
    Ok(are_true(few, entered, left, of_table))
}

/// The numbers of the tasks of a plan. None exactly where two tasks put at one key or the key of a put is missing,
/// where a scope of the table is not entered or not left, where a task is not of the table, or where there are more
/// than 4,294,967,295 tasks.
pub fn number_tasks(alloc: Global, plan: &Plan) -> Result<Option<Numbers>, OutOfMemory>
    ensures { IfOk result (λ o. MatchOption o
        (AreOfScopes plan.now.start.register.table plan.now.tasks.items plan.now.keys.items → ⊥)
        (λ n. AreNumbers plan.now.start.register.table plan.now.tasks.items plan.now.keys.items n)) }
{
    match number_all(alloc, plan.tasks.as_slice(), plan.keys.as_slice()) {
        Ok(Some(numbers)) => match is_whole(alloc, plan, &numbers) {
            Ok(true) => Ok(Some(numbers)),
            Ok(false) => Ok(None),
            Err(_) => run_out(numbers),
        },
        Ok(None) => Ok(None),
        Err(error) => Err(error),
    }
}
