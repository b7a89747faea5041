// The trait of what deals jobs.

ghost use Rattle.std.specs.Prelude.{◌≡◌, ◌++◌, ◌∷◌, []};

use crate::next::Next;
use arm_value::OutOfMemory;
use provider_trait::Answer;
use std::alloc::Global;

/// What deals jobs: it begins one where it is asked, and is given the answer or the job back.
///
/// The Begin of a task is open until the task has its answer or is given back. At most one Begin of a
/// task is open.
pub trait Dealer {
    ghost use Rattle.std.specs.Prelude.{◌≡◌, ◌++◌, ◌∷◌, [], List};
    ghost use Rattle.dealer_trait.specs.declared.dealer_step.DealerStep.{DealerStep};
    ghost use Rattle.dealer_trait.specs.Steps.{answered, given_back, IsBegun, MayAnswer, AsksFor, HasEnd};

    /// What no call changes: of a board its plan.
    ghost Fixed: { Type 0 };

    ghost fixed: { Self → Fixed };

    /// Its steps, oldest first.
    ghost steps: { Self → List DealerStep };

    /// What holds of a dealer that has come to its end.
    ghost is_end: { Self → Type 0 };

    /// Begins a job for the worker of this number.
    ///
    /// `Begun` adds one Begin: the job's worker has this number, and no Begin of its task was open.
    /// Every other answer adds no step, `OutOfMemory` included. After `End` the dealer has come to its
    /// end.
    fn next(&mut self, alloc: Global, worker: u32) -> Result<Next, OutOfMemory>
        ensures asked { AsksFor worker (steps self.old) (steps self.new) result }
        ensures end { HasEnd (is_end self.new) result }
        ensures fixed { fixed self.new ≡ fixed self.old };

    /// Takes the answer to the open Begin of the task: `Stored` or `Refused` to a put, `Gone` or
    /// `Refused` to a deletion. It takes no memory.
    fn answer(&mut self, task: u32, answer: Answer)
        requires { MayAnswer task answer (steps self.old) }
        ensures steps { steps self.new ≡ steps self.old ++ answered task answer ∷ [] }
        ensures fixed { fixed self.new ≡ fixed self.old };

    /// Takes the job of the open Begin of the task back. It takes no memory.
    fn back(&mut self, task: u32)
        requires { IsBegun task (steps self.old) }
        ensures steps { steps self.new ≡ steps self.old ++ given_back task ∷ [] }
        ensures fixed { fixed self.new ≡ fixed self.old };
}
