// A board deals jobs.

use crate::board::Board;
use arm_value::OutOfMemory;
use dealer_trait::{Dealer, Next};
use provider_trait::Answer;
use std::alloc::Global;
use task_standings::Standings;

impl<S: Standings> Dealer for Board<S> {
    ghost use Rattle.std.specs.Prelude.{List};
    ghost use Rattle.deploy_histories.specs.Events.{Event, progress};
    ghost use Rattle.deploy_histories.specs.Legal.{HasEnded};
    ghost use Rattle.deploy_histories.specs.Planned.{Planned};
    ghost use Rattle.deploy_core.specs.Steps.{steps_of, until_crash};

    ghost Fixed = { Planned × List Event };

    ghost fixed = { λ b. (S.planned b.0, until_crash b.1.events) };

    ghost steps = { λ b. steps_of (S.planned b.0) b.1.events };

    ghost is_end = { λ b. HasEnded (S.planned b.0) (progress b.1.events) };

    fn next(&mut self, alloc: Global, worker: u32) -> Result<Next, OutOfMemory> {
        Board::next(self, alloc, worker)
    }

    // That a task is begun by the history follows from its steps, since the history is legal: `history` ensures it.
    fn answer(&mut self, task: u32, answer: Answer) {
        self.history();
        Board::answer(self, task, answer);
    }

    fn back(&mut self, task: u32) {
        self.history();
        Board::back(self, task);
    }
}
