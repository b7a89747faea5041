// The seats of a deployment.

ghost use Rattle.std.specs.Prelude.{◌≡◌, None};

use provider_trait::{Answer, Job, Provider, ProviderFault};

/// A provider with its job and its last result.
#[derive(Drop)]
pub struct Seat<P: Drop> {
    /// The provider.
    pub provider: P,
    /// The job that the provider is to do.
    pub job: Option<Job>,
    /// What the last call of the provider returned.
    pub got: Option<Result<Answer, ProviderFault>>,
}

impl<P: Provider> Seat<P> {
    /// A seat without a job and without a result.
    pub fn new(provider: P) -> Seat<P>
        ensures provider { result.provider ≡ provider }
        ensures no_job { result.job ≡ None }
        ensures no_call { result.got ≡ None }
    {
        Seat {
            provider,
            job: None,
            got: None,
        }
    }
}
