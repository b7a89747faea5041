// The needs of a plan as pairs.

ghost use Rattle.std.specs.Prelude.{◌≡◌, ◌<◌, ◌+◌, OnOk, IfOk, [], length};
ghost use Rattle.deploy_core.specs.Opens.{AreStartNeeds};
ghost use Rattle.given_plans.specs.Given.{planned_of, IsGiven};
ghost use Rattle.given_plans.specs.Listing.{AreListed};

use crate::plan::GivenPlan;
use arm_value::OutOfMemory;
use std::alloc::Global;

// Adds the pair where the one task needs the other.
fn list_pair(
    plan: &GivenPlan,
    needs: &mut Vec<(usize, usize)>,
    first: u32,
    second: u32,
) -> Result<(), OutOfMemory>
    requires first { first < length plan.now.tasks.items }
    requires second { second < length plan.now.tasks.items }
    requires listed { AreListed (planned_of plan.now) first second needs.old.items }
    ensures { OnOk result (AreListed (planned_of plan.now) first (second + 1) needs.new.items) }
{
    let task = plan.task(first);
    let other = plan.task(second);
    if !plan.needs(task, other) {
        return Ok(());
    }
    needs.push((first as usize, second as usize))?;
    Ok(())
}

// Adds the pairs of a task and of each that it needs.
fn list_of(
    plan: &GivenPlan,
    needs: &mut Vec<(usize, usize)>,
    first: u32,
    count: u32,
) -> Result<(), OutOfMemory>
    requires first { first < length plan.now.tasks.items }
    requires count { count ≡ length plan.now.tasks.items }
    requires listed { AreListed (planned_of plan.now) first 0 needs.old.items }
    ensures { OnOk result (AreListed (planned_of plan.now) (first + 1) 0 needs.new.items) }
{
    for second in 0..count {
        list_pair(plan, needs, first, second)?;
    }
    Ok(())
}

// Adds all pairs.
fn list_all(plan: &GivenPlan, needs: &mut Vec<(usize, usize)>) -> Result<(), OutOfMemory>
    requires few { IsGiven plan.now }
    requires none { needs.old.items ≡ [] }
    ensures { OnOk result (AreStartNeeds (planned_of plan.now) needs.new.items) }
{
    let count = plan.tasks.len() as u32;
    for first in 0..count {
        list_of(plan, needs, first, count)?;
    }
    Ok(())
}

impl GivenPlan {
    /// The pairs of a task and of one that it needs by what is known at the start.
    pub fn start_needs(&self, alloc: Global) -> Result<Vec<(usize, usize)>, OutOfMemory>
        requires { IsGiven self.now }
        ensures { IfOk result (λ ns. AreStartNeeds (planned_of self.now) ns.items) }
    {
        let mut needs = Vec::new(alloc);
        list_all(self, &mut needs)?;
        Ok(needs)
    }
}
