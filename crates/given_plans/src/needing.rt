// Which task needs which.

ghost use Rattle.std.specs.Prelude.{◌≡◌, ◌||◌, nat_eq};
ghost use Rattle.deploy_histories.specs.Readiness.{needs_first};
ghost use Rattle.given_plans.specs.Given.{planned_of, task_of, is_next, follows};
ghost use Rattle.given_plans.specs.declared.plan.GivenTask.TheVariants as given;

use crate::plan::{GivenPlan, GivenTask};

// Whether the one number comes after the other.
fn is_after(first: u32, second: u32) -> bool
    ensures { result ≡ is_next first second }
{
    u64::from(first) == u64::from(second) + 1
}

// Whether a scope is the other one, or directly in it or around it.
fn is_near(depth: u32, other: u32) -> bool
    ensures { result ≡ (is_next depth other || (is_next other depth || nat_eq depth other)) }
{
    is_after(depth, other) || (is_after(other, depth) || depth == other)
}

impl GivenPlan {
    // Whether the one instance is of the batch after that of the other.
    fn is_batch_after(&self, first: u32, second: u32) -> bool
        ensures { result ≡ follows self.now.size first second }
    {
        let size = u64::from(self.size) + 1;
        u64::from(first) / size == u64::from(second) / size + 1
    }

    // Whether the put of an instance needs the other task.
    fn put_needs(&self, index: u32, other: GivenTask) -> bool
        ensures { result ≡ needs_first (planned_of self.now) (task_of (given.Put index)) (task_of other) }
    {
        match other {
            GivenTask::Enter(depth) => depth == 0,
            GivenTask::Put(second) => self.is_batch_after(index, second),
            GivenTask::Leave(_) => false,
        }
    }

    // Whether the entry of a scope needs the other task.
    fn entry_needs(&self, depth: u32, other: GivenTask) -> bool
        ensures { result ≡ needs_first (planned_of self.now) (task_of (given.Enter depth)) (task_of other) }
    {
        match other {
            GivenTask::Enter(around) => is_after(depth, around),
            GivenTask::Put(_) => false,
            GivenTask::Leave(_) => false,
        }
    }

    // Whether the leave of a scope needs the other task.
    fn leave_needs(&self, depth: u32, other: GivenTask) -> bool
        ensures { result ≡ needs_first (planned_of self.now) (task_of (given.Leave depth)) (task_of other) }
    {
        match other {
            GivenTask::Enter(entered) => is_near(depth, entered),
            GivenTask::Put(_) => depth == 0,
            GivenTask::Leave(inner) => is_after(inner, depth),
        }
    }

    /// Whether the one task needs the other by what is known at the start.
    pub fn needs(&self, first: GivenTask, second: GivenTask) -> bool
        ensures { result ≡ needs_first (planned_of self.now) (task_of first) (task_of second) }
    {
        match first {
            GivenTask::Enter(depth) => self.entry_needs(depth, second),
            GivenTask::Put(index) => self.put_needs(index, second),
            GivenTask::Leave(depth) => self.leave_needs(depth, second),
        }
    }
}
