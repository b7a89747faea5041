// A provider that does nothing.

use arm_value::Text;
use provider_trait::{Answer, Job, Provider, ProviderFault};
use std::alloc::Global;

/// A provider that does nothing: each deletion is done at once, and each put is refused.
#[derive(Drop)]
pub struct Idle;

impl Provider for Idle {
    ghost use Rattle.std.specs.Prelude.{false, []};

    ghost may = { λ act id api body answer. Unit {0} };

    ghost faults = { λ _. 0 };

    ghost tells = { false };

    ghost calls = { λ _. [] };

    fn put(&mut self, alloc: Global, job: &Job) -> Result<Answer, ProviderFault> {
        Ok(Answer::Refused(Text::of(alloc, "Idle")?))
    }

    fn delete(&mut self, alloc: Global, job: &Job) -> Result<Answer, ProviderFault> {
        Ok(Answer::Gone)
    }
}
