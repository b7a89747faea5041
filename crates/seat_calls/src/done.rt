// A job of a seat with what its call returned.

ghost use Rattle.std.specs.Prelude.{◌≡◌, IfOk};
ghost use Rattle.std.proofs.Props.{props};
ghost use Rattle.provider_trait.specs.Answer.{Suits};
ghost use Rattle.seat_calls.specs.Called.{Called, suits_prop};

use crate::serving::Serves;
use provider_trait::{Answer, Job, ProviderFault};
use std::alloc::Global;

/// A job of a seat with what its call returned. An answer suits what the job asks for.
#[derive(Drop)]
pub struct Done {
    /// The number of the seat.
    pub worker: u32,
    /// The job that the provider was called with.
    pub job: Job,
    /// What the call returned.
    pub got: Result<Answer, ProviderFault>,
    ghost suits: { IfOk got (Suits job.act) } by { Prim.hlevel (props, suits_prop) },
}

/// Calls the seat's provider with the job.
pub fn done_by<P: Serves>(provider: &mut P, alloc: Global, worker: u32, job: Job) -> Done
    ensures worker { result.worker ≡ worker }
    ensures job { result.job ≡ job }
    ensures called { Called P.may P.tells P.calls P.faults
        provider.old provider.new result.job result.got }
{
    let got = provider.call(alloc, &job);
    Done { worker, job, got }
}
