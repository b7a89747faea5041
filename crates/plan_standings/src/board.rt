// What a board asks of a plan.
ghost use Rattle.std.specs.Prelude.{◌≡◌, IfOk};
ghost use Rattle.plan_standings.specs.Titles.{or_root};

use crate::root_outputs::root_outputs;
use crate::standings::PlanStandings;
use arm_value::{OutOfMemory, Text};
use board_history::History;
use std::alloc::Global;
use task_aims::{aim_of, place_of};
use task_standings::{Aim, Failing, Kind, RootOutput, Standing, Standings};

// The text; `/` where it is empty.
fn or_root(alloc: Global, text: Text) -> Result<Text, OutOfMemory>
    ensures { IfOk result (λ t. t ≡ or_root text) }
{
    if text.is_empty() {
        return Text::of(alloc, "/");
    }
    Ok(text)
}

impl<'p, 'a> Standings for PlanStandings<'p, 'a> {
    ghost use Rattle.plan_standings.specs.Titles.{title};
    ghost use Rattle.plan_standings.specs.Kept.{planned_of, known_of, IsSound, HasNoted};
    ghost use Rattle.plan_standings.specs.Tells as faults;

    ghost planned = { λ s. planned_of s };

    ghost known = { λ s. known_of s };

    ghost sound = { λ s. IsSound s };

    ghost noted = { λ s u. HasNoted s u };

    ghost tells = { faults.tells };

    ghost titled = { λ x q. title x q };

    fn count(&self) -> u32 {
        self.task_count()
    }

    fn kind(&self, task: u32) -> Kind {
        self.task_kind(task)
    }

    fn aim(&self, alloc: Global, task: u32) -> Result<Aim, OutOfMemory> {
        aim_of(alloc, self.plan, self.held, task)
    }

    fn place(&self, alloc: Global, task: u32) -> Result<Text, OutOfMemory> {
        let place = place_of(alloc, self.plan, task)?;
        or_root(alloc, place)
    }

    fn standing(
        &mut self,
        alloc: Global,
        history: &History,
        task: u32,
    ) -> Result<Standing, OutOfMemory> {
        self.task_standing(alloc, history, task)
    }

    fn left(&mut self, history: &History, task: u32) {
        self.scope_left(history, task)
    }

    fn failing(
        &mut self,
        alloc: Global,
        history: &History,
        task: u32,
    ) -> Result<Failing, OutOfMemory> {
        self.task_failing(alloc, history, task)
    }

    fn outputs(&self, alloc: Global) -> Result<Vec<RootOutput>, OutOfMemory> {
        root_outputs(alloc, &self.plan.start.register.table, &self.later)
    }
}
