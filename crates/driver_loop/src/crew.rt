// The trait of seats that do jobs.

use provider_trait::Job;
use seat_calls::Done;
use std::sync::Wait;

/// Seats that do jobs, as their driver sees them.
pub trait Crew {
    ghost use Rattle.std.specs.Prelude.{◌≡◌, ◌<◌, ◌++◌, ◌∷◌, [], ℕ, List};
    ghost use Rattle.provider_trait.specs.Work.{Work};
    ghost use Rattle.seat_calls.specs.declared.done.Done.{Done};
    ghost use Rattle.driver_loop.specs.Actions.{if_own};

    /// What no call changes.
    type Fixed;

    ghost fixed: { Self → Self.Fixed };

    /// How many seats there are. They are numbered from 0.
    ghost seats: { Self → ℕ };

    /// Whether the seats can be used.
    ghost is_ready: { Self → Type 0 };

    /// The jobs that a seat was sent, oldest first.
    ghost sent: { Self → ℕ → List Work };

    /// What was received of the seats, oldest first.
    ghost received: { Self → List Done };

    /// Sends a job to a seat.
    fn send<R: Wait>(&mut self, rt: &R, worker: u32, job: Job)
        requires seat { worker < seats self.old }
        requires ready { is_ready self.old }
        ensures ready { is_ready self.new }
        ensures fixed { fixed self.new ≡ fixed self.old }
        ensures seats { seats self.new ≡ seats self.old }
        ensures sent { (k : ℕ) → sent self.new k ≡ sent self.old k ++ if_own k worker job }
        ensures received { received self.new ≡ received self.old };

    /// Waits for what a seat has done.
    fn receive<R: Wait>(&mut self, rt: &R) -> Done
        requires { is_ready self.old }
        ensures ready { is_ready self.new }
        ensures fixed { fixed self.new ≡ fixed self.old }
        ensures seats { seats self.new ≡ seats self.old }
        ensures sent { (k : ℕ) → sent self.new k ≡ sent self.old k }
        ensures received { received self.new ≡ received self.old ++ result ∷ [] };
}
