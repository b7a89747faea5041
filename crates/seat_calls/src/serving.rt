// What a seat calls with its jobs.

use provider_trait::{Act, Answer, Job, Provider, ProviderFault};
use std::alloc::Global;

/// What a seat calls with its jobs. Each provider is one.
///
/// The trait promises nothing about threads. So a method of any trait can make calls through it, and
/// `Send` is asked for only where a thread is started.
pub trait Serves: Drop {
    ghost use Rattle.std.specs.Prelude.{ℕ, Bool, List};
    ghost use Rattle.provider_trait.specs.declared.call.Call.{Call};
    ghost use Rattle.seat_calls.specs.Called.{Kind, Called};

    /// Which answers it may give to an act on an id with a version and a body.
    ghost may: { Kind };

    /// Whether it reports its calls.
    ghost tells: { Bool };

    /// The reported calls, oldest first.
    ghost calls: { Self → List Call };

    /// How often a call has failed.
    ghost faults: { Self → ℕ };

    /// Makes one call with the job: a put or a deletion, as the job's act says.
    ///
    /// # Errors
    ///
    /// `Fault` only where the count of faults rose; `OutOfMemory` with no further call reported.
    fn call(&mut self, alloc: Global, job: &Job) -> Result<Answer, ProviderFault>
        ensures called { Called may tells calls faults self.old self.new job.now result };
}

impl<P: Provider> Serves for P {
    ghost may = { P.may };

    ghost tells = { P.tells };

    ghost calls = { P.calls };

    ghost faults = { P.faults };

    fn call(&mut self, alloc: Global, job: &Job) -> Result<Answer, ProviderFault> {
        match job.act() {
            Act::Put => self.put(alloc, job),
            Act::Delete => self.delete(alloc, job),
        }
    }
}
