// What providers answer, and why one gives no answer.

ghost use Rattle.std.specs.Prelude.{◌≡◌, IfOk};

use crate::state::State;
use arm_value::{OutOfMemory, Text};
use std::alloc::{AllocError, Global};
use thiserror::Error;

/// What a provider answers to a job. `Stored` answers puts and `Gone` deletions.
#[derive(Drop)]
pub enum Answer {
    /// The put was done, and the resource is in this state.
    Stored(State),
    /// The deletion was done.
    Gone,
    /// The provider refused, with this code.
    Refused(Text),
}

impl Answer {
    /// A copy of the answer.
    pub fn copy(&self, alloc: Global) -> Result<Answer, OutOfMemory>
        ensures { IfOk result (λ a. a ≡ self.now) }
    {
        match self {
            Answer::Stored(state) => Ok(Answer::Stored(state.copy(alloc)?)),
            Answer::Gone => Ok(Answer::Gone),
            Answer::Refused(code) => Ok(Answer::Refused(code.copy(alloc)?)),
        }
    }
}

/// Why a provider gave no answer.
#[derive(Clone, Copy, Debug, Error, PartialEq, Eq)]
pub enum ProviderFault {
    /// The provider failed; its count of faults rose.
    #[error("the provider failed")]
    Fault,
    /// Out of memory; the count of faults and the reported calls are unchanged.
    #[error("out of memory")]
    OutOfMemory,
}

impl From<AllocError> for ProviderFault {
    ghost use Rattle.std.specs.Prelude.{◌≡◌};
    ghost use Rattle.provider_trait.specs.declared.answer.ProviderFault.TheVariants.{OutOfMemory};

    ghost from_gives = { λ _ e. e ≡ OutOfMemory };

    fn from(_refused: AllocError) -> ProviderFault {
        ProviderFault::OutOfMemory
    }
}
