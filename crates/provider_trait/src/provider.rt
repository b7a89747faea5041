// The trait of what deploys resources.

ghost use Rattle.std.specs.Prelude.{◌≡◌, IfOk};

use crate::answer::{Answer, ProviderFault};
use crate::job::Job;
use std::alloc::Global;

/// What deploys resources: it is asked to put or to delete one resource, and answers.
///
/// A provider that reports its calls lists each call that answered or failed, and no call that was
/// out of memory.
pub trait Provider: Send + Drop {
    ghost use Rattle.std.specs.Prelude.{◌≡◌, ℕ, Bool, true, List};
    ghost use Rattle.arm_value.specs.Json.{Json};
    ghost use Rattle.provider_trait.specs.declared.act.Act.{Act};
    ghost use Rattle.provider_trait.specs.declared.act.Act.TheVariants.{Put, Delete};
    ghost use Rattle.provider_trait.specs.declared.answer.Answer.{Answer};
    ghost use Rattle.provider_trait.specs.declared.call.Call.{Call};
    ghost use Rattle.provider_trait.specs.Answer.{Suits};
    ghost use Rattle.provider_trait.specs.Calls.{AddsCall, Counts};

    /// Which answers providers of this kind may give to an act on an id with a version and a body.
    ghost may: { Act → List ℕ → List ℕ → Json → Answer → Type 0 };

    /// How often a call has failed.
    ghost faults: { Self → ℕ };

    /// Whether providers of this kind report their calls.
    ghost tells: { Bool };

    /// The reported calls, oldest first.
    ghost calls: { Self → List Call };

    /// Puts the resource of the job.
    ///
    /// # Errors
    ///
    /// `Fault` only where the count of faults rose; `OutOfMemory` with no further call reported.
    fn put(&mut self, alloc: Global, job: &Job) -> Result<Answer, ProviderFault>
        requires { job.now.act ≡ Put }
        ensures may { IfOk result (may Put job.now.id job.now.api job.now.body) }
        ensures suits { IfOk result (Suits Put) }
        ensures count { Counts (faults self.old) (faults self.new) result }
        ensures calls { tells ≡ true → AddsCall (calls self.old) (calls self.new) job.now result };

    /// Deletes the resource of the job.
    ///
    /// # Errors
    ///
    /// `Fault` only where the count of faults rose; `OutOfMemory` with no further call reported.
    fn delete(&mut self, alloc: Global, job: &Job) -> Result<Answer, ProviderFault>
        requires { job.now.act ≡ Delete }
        ensures may { IfOk result (may Delete job.now.id job.now.api job.now.body) }
        ensures suits { IfOk result (Suits Delete) }
        ensures count { Counts (faults self.old) (faults self.new) result }
        ensures calls { tells ≡ true → AddsCall (calls self.old) (calls self.new) job.now result };
}
