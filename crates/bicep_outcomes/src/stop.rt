// Why an expression has no value, or not yet.
ghost use Rattle.std.specs.Prelude.{◌≡◌};
ghost use Rattle.bicep_outcomes.specs.declared.stop.Stop.TheVariants.{OutOfMemory};

use std::alloc::AllocError;

/// Why there is no value.
#[derive(Clone, Copy, PartialEq, Eq, Debug)]
pub enum Stop {
    /// There is none.
    NoValue,
    /// The cell of that number is read first of what is not known yet. Whoever knows the cells numbers them.
    Waits(usize),
    /// A copy could not be made.
    OutOfMemory,
}

impl From<AllocError> for Stop {
    ghost from_gives = { λ _ e. e ≡ OutOfMemory };

    fn from(_fault: AllocError) -> Stop {
        Stop::OutOfMemory
    }
}
