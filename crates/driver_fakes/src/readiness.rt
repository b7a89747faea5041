// Which tasks may begin.

ghost use Rattle.std.specs.Prelude.{◌≡◌, ◌<◌, ◌≤◌, ◌^◌, ◌&&◌, ℕ, true, false, length, MatchOption};
ghost use Rattle.std.specs.List.{list_all};
ghost use Rattle.driver_fakes.specs.Stages.{is_done, is_ready_at, stage_at};
ghost use Rattle.driver_fakes.specs.Needs.{needs_at};
ghost use Rattle.driver_fakes.specs.declared.stage.Stage.TheVariants.{Done};

use crate::stage::Stage;

// Where the task of this number is.
fn stage_at(stages: &[Stage], task: usize) -> Stage
    ensures { result ≡ stage_at stages.now task }
{
    match stages.get(task) {
        Some(stage) => *stage,
        None => Stage::Waiting,
    }
}

// Whether all these tasks are done.
fn are_done(stages: &[Stage], needs: &[u32]) -> bool
    ensures { result ≡ list_all (λ need. is_done (stage_at stages.now need)) needs.now }
{
    needs
        .iter()
        .all(|need| stage_at(stages, *need as usize).is_done())
}

// Whether the task of this number may begin, which needs those tasks.
fn is_ready(stages: &[Stage], needs: &[Vec<u32>], task: usize) -> bool
    ensures { result ≡ is_ready_at stages.now (needs_at needs.now task) task }
{
    if !stage_at(stages, task).is_waiting() {
        return false;
    }
    match needs.get(task) {
        Some(needs) => are_done(stages, needs.as_slice()),
        None => true,
    }
}

// The first task from there on that is not done, or their number.
pub(crate) fn first_undone(stages: &[Stage], from: usize) -> usize
    requires { from ≤ length stages.now }
    ensures within { (from ≤ result) × (result ≤ length stages.now) }
    ensures passed { (k : ℕ) → k < result → from ≤ k → stage_at stages.now k ≡ Done }
{
    for task in from..stages.len() {
        if !stage_at(stages, task).is_done() {
            return task;
        }
    }
    stages.len()
}

// The least task from there on that may begin.
pub(crate) fn least_ready(stages: &[Stage], needs: &[Vec<u32>], from: usize) -> Option<usize>
    requires { from ≤ length stages.now }
    ensures { MatchOption result
        ((k : ℕ) → k < length stages.now → from ≤ k
        → is_ready_at stages.now (needs_at needs.now k) k ≡ false)
        (λ task. (from ≤ task) × (task < length stages.now)
        × (is_ready_at stages.now (needs_at needs.now task) task ≡ true)
        × ((k : ℕ) → k < task → from ≤ k
        → is_ready_at stages.now (needs_at needs.now k) k ≡ false)) }
{
    for task in from..stages.len() {
        if is_ready(stages, needs, task) {
            return Some(task);
        }
    }
    None
}
