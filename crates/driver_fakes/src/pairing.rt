// Two providers that answer whether their first calls overlap.

ghost use Rattle.std.specs.Prelude.{◌≡◌, [], Ok, IfOk};
ghost use Rattle.provider_trait.specs.Calls.{GivesUnlessMemory};
ghost use Rattle.provider_trait.specs.ScriptParts.{script_calls, script_faults, script_steps};
ghost use Rattle.driver_fakes.specs.Pairs.{PairingMay, alone};

use arm_value::{OutOfMemory, Text};
use provider_trait::{Answer, Job, Provider, ProviderFault, Script};
use std::alloc::Global;
use std::sync::Arc;
use std::sync::atomic::{AtomicU64, Ordering};

/// How often the first call of a pair looks for the second before it gives up.
pub const TURNS: u32 = 100_000_000;

/// One of two providers that share a count of calls.
///
/// The first call on either waits until the second call on either has come, and is refused by `Alone`
/// where that has not come after `TURNS` turns. Every other call is answered as a `Script` without
/// steps answers it. So two threads with a provider each get no refusal, and one thread gets one.
#[derive(Drop)]
pub struct Pairing {
    calls: Arc<AtomicU64, Global>,
}

impl Pairing {
    /// A pair on which no call was made.
    pub fn pair(alloc: Global) -> Result<(Pairing, Pairing), OutOfMemory> {
        let calls = Arc::new(alloc, AtomicU64::new(0))?;
        let same = Arc::try_clone(&calls)?;
        Ok((Pairing { calls }, Pairing { calls: same }))
    }

    // Counts a call; whether it is the first, and the second has not come in time.
    fn is_alone(&self) -> bool {
        if self.calls.load(Ordering::SeqCst) >= 2 {
            return false;
        }
        self.calls.fetch_add(1, Ordering::SeqCst) == 0 && !self.is_joined()
    }

    // Waits for the second call; whether it has come.
    fn is_joined(&self) -> bool {
        for _ in 0..TURNS {
            if self.calls.load(Ordering::SeqCst) >= 2 {
                return true;
            }
        }
        false
    }
}

// The refusal of a call that is alone.
fn refused(alloc: Global) -> Result<Answer, ProviderFault>
    ensures ok { IfOk result (λ a. a ≡ alone) }
    ensures gives { GivesUnlessMemory (Ok alone) result }
{
    Ok(Answer::Refused(Text::of(alloc, "Alone")?))
}

// What a script without steps answers.
fn done(alloc: Global) -> Script
    ensures steps { script_steps result ≡ [] }
    ensures calls { script_calls result ≡ [] }
    ensures faults { script_faults result ≡ 0 }
{
    Script::new(alloc, Vec::new(alloc))
}

impl Provider for Pairing {
    ghost use Rattle.std.specs.Prelude.{false};

    ghost may = { PairingMay };

    ghost faults = { λ _. 0 };

    ghost tells = { false };

    ghost calls = { λ _. [] };

    fn put(&mut self, alloc: Global, job: &Job) -> Result<Answer, ProviderFault> {
        if self.is_alone() {
            return refused(alloc);
        }
        done(alloc).put(alloc, job)
    }

    fn delete(&mut self, alloc: Global, job: &Job) -> Result<Answer, ProviderFault> {
        if self.is_alone() {
            return refused(alloc);
        }
        done(alloc).delete(alloc, job)
    }
}
