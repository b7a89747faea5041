// One call on a provider.

ghost use Rattle.seat_calls.specs.Called.{Called};

use provider_trait::{Act, Answer, Job, Provider, ProviderFault};
use std::alloc::Global;

/// Calls the provider with the job: a put or a deletion, as the job's act says.
///
/// # Errors
///
/// `Fault` only where the provider's count of faults rose; `OutOfMemory` with no further call reported.
pub fn call_provider<P: Provider>(
    provider: &mut P,
    alloc: Global,
    job: &Job,
) -> Result<Answer, ProviderFault>
    ensures { Called P.may P.tells P.calls P.faults provider.old provider.new job.now result }
{
    match job.act() {
        Act::Put => provider.put(alloc, job),
        Act::Delete => provider.delete(alloc, job),
    }
}
