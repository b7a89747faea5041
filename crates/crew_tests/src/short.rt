// A provider that is out of memory at one call.

ghost use Rattle.std.specs.Prelude.{◌≡◌, []};
ghost use Rattle.provider_trait.specs.ScriptParts.{script_calls, script_faults, script_steps};

use provider_trait::{Answer, Job, Provider, ProviderFault, Script};
use std::alloc::Global;

/// A provider that does what it is asked, but for one call, which is out of memory.
#[derive(Drop)]
pub struct Short {
    /// How many calls come before that one.
    pub left: u32,
}

impl Short {
    // Whether this call is that one.
    fn is_short(&mut self) -> bool {
        match self.left.checked_sub(1) {
            Some(left) => {
                self.left = left;
                false
            }
            None => true,
        }
    }
}

// What a script without steps answers.
fn done(alloc: Global) -> Script
    ensures steps { script_steps result ≡ [] }
    ensures calls { script_calls result ≡ [] }
    ensures faults { script_faults result ≡ 0 }
{
    Script::new(alloc, Vec::new(alloc))
}

impl Provider for Short {
    ghost use Rattle.std.specs.Prelude.{false};
    ghost use Rattle.driver_fakes.specs.Pairs.{PairingMay};

    ghost may = { PairingMay };

    ghost faults = { λ _. 0 };

    ghost tells = { false };

    ghost calls = { λ _. [] };

    fn put(&mut self, alloc: Global, job: &Job) -> Result<Answer, ProviderFault> {
        if self.is_short() {
            return Err(ProviderFault::OutOfMemory);
        }
        done(alloc).put(alloc, job)
    }

    fn delete(&mut self, alloc: Global, job: &Job) -> Result<Answer, ProviderFault> {
        if self.is_short() {
            return Err(ProviderFault::OutOfMemory);
        }
        done(alloc).delete(alloc, job)
    }
}
