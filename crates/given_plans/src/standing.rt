// How the tasks of a plan that is given as tables stand.

use crate::plan::{GivenPlan, body_of};
use arm_value::{OutOfMemory, Text};
use board_history::History;
use point_values::laws::seen_tasks_are_ready;
use std::alloc::Global;
use task_standings::{Aim, Failing, Kind, RootOutput, Standing, Standings};

impl Standings for GivenPlan {
    ghost use Rattle.std.specs.Prelude.{[]};
    ghost use Rattle.given_plans.specs.Given.{planned_of, nothing_known, IsGiven};

    ghost planned = { λ g. planned_of g };

    // No value reads anything.
    ghost known = { λ g. nothing_known };

    ghost sound = { λ g. IsGiven g };

    ghost noted = { λ g u. Unit {0} };

    ghost tells = { λ x u f said. ⊥ };

    ghost titled = { λ x q. [] };

    fn count(&self) -> u32 {
        self.tasks.len() as u32
    }

    fn kind(&self, task: u32) -> Kind {
        self.kind_at(task)
    }

    fn aim(&self, alloc: Global, task: u32) -> Result<Aim, OutOfMemory> {
        let _task = task;
        self.put_aim(alloc)
    }

    fn place(&self, alloc: Global, task: u32) -> Result<Text, OutOfMemory> {
        let _task = task;
        Ok(Text::from_string(String::new(alloc)))
    }

    fn standing(
        &mut self,
        alloc: Global,
        history: &History,
        task: u32,
    ) -> Result<Standing, OutOfMemory> {
        let _alloc = alloc;
        let _history = history;
        seen_tasks_are_ready();
        Ok(Standing::Ready(body_of(self.task(task))))
    }

    fn left(&mut self, history: &History, task: u32) {
        let _history = history;
        let _task = task;
    }

    // Each task is ready once what it needs is done, so this is called of none.
    fn failing(
        &mut self,
        alloc: Global,
        history: &History,
        task: u32,
    ) -> Result<Failing, OutOfMemory> {
        let _alloc = alloc;
        let _history = history;
        seen_tasks_are_ready();
        Ok(Failing::Needs(task))
    }

    fn outputs(&self, alloc: Global) -> Result<Vec<RootOutput>, OutOfMemory> {
        Ok(Vec::new(alloc))
    }
}
