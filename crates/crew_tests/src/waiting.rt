// A provider whose first call waits for calls of another one.

ghost use Rattle.std.specs.Prelude.{◌≡◌, [], Ok, IfOk};
ghost use Rattle.provider_trait.specs.Calls.{GivesUnlessMemory};
ghost use Rattle.provider_trait.specs.ScriptParts.{script_calls, script_faults, script_steps};
ghost use Rattle.driver_fakes.specs.Pairs.{PairingMay, alone};

use arm_value::Text;
use provider_trait::{Answer, Job, Provider, ProviderFault, Script};
use std::alloc::{AllocError, Global};
use std::mem;
use std::sync::Arc;
use std::sync::atomic::{AtomicU64, Ordering};

/// How often a call looks before it gives up, where the calls that it waits for may come.
pub const LONG: u32 = 100_000_000;

/// The same, where they cannot come.
pub const SHORT: u32 = 10_000;

/// One of two providers. The first call of the one that waits lasts until the other has had so many
/// calls, and is refused by `Alone` where they have not come after so many turns. Every other call does
/// what it is asked.
#[derive(Drop)]
pub struct Waiting {
    wanted: u64,
    turns: u32,
    calls: Arc<AtomicU64, Global>,
}

impl Waiting {
    /// One that waits for so many calls of the other one, and that one.
    pub fn pair(alloc: Global, wanted: u64, turns: u32) -> Result<(Waiting, Waiting), AllocError> {
        let calls = Arc::new(alloc, AtomicU64::new(0))?;
        let same = Arc::try_clone(&calls)?;
        Ok((
            Waiting {
                wanted,
                turns,
                calls,
            },
            Waiting {
                wanted: 0,
                turns,
                calls: same,
            },
        ))
    }

    // Counts a call of the other one, or waits for its calls; whether they have not come in time.
    fn is_alone(&mut self) -> bool {
        if self.wanted == 0 {
            self.calls.fetch_add(1, Ordering::SeqCst);
            return false;
        }
        let wanted = mem::replace(&mut self.wanted, 0);
        for _ in 0..self.turns {
            if self.calls.load(Ordering::SeqCst) >= wanted {
                return false;
            }
        }
        true
    }
}

// The refusal of a call that is alone.
fn refused(alloc: Global) -> Result<Answer, ProviderFault>
    ensures ok { IfOk result (λ a. a ≡ alone) }
    ensures gives { GivesUnlessMemory (Ok alone) result }
{
    Ok(Answer::Refused(Text::of(alloc, "Alone")?))
}

// What a script without steps answers.
fn done(alloc: Global) -> Script
    ensures steps { script_steps result ≡ [] }
    ensures calls { script_calls result ≡ [] }
    ensures faults { script_faults result ≡ 0 }
{
    Script::new(alloc, Vec::new(alloc))
}

impl Provider for Waiting {
    ghost use Rattle.std.specs.Prelude.{false};

    ghost may = { PairingMay };

    ghost faults = { λ _. 0 };

    ghost tells = { false };

    ghost calls = { λ _. [] };

    fn put(&mut self, alloc: Global, job: &Job) -> Result<Answer, ProviderFault> {
        if self.is_alone() {
            return refused(alloc);
        }
        done(alloc).put(alloc, job)
    }

    fn delete(&mut self, alloc: Global, job: &Job) -> Result<Answer, ProviderFault> {
        if self.is_alone() {
            return refused(alloc);
        }
        done(alloc).delete(alloc, job)
    }
}
