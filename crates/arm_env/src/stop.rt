// Why an expression has no value, or not yet.
ghost use Rattle.std.specs.Prelude.{◌≡◌, Err, IsErr};
ghost use Rattle.arm_env.specs.Answer.{outcome_of};
ghost use Rattle.arm_env.specs.declared.stop.Stop.TheVariants.{OutOfMemory};

use crate::cell::Cell;
use std::alloc::AllocError;

/// Why there is no value.
#[derive(Drop)]
pub enum Stop {
    /// There is none.
    NoValue,
    /// The cell is looked at first of what is not known yet.
    Waits(Cell),
    /// A copy could not be made.
    OutOfMemory,
}

impl From<AllocError> for Stop {
    ghost from_gives = { λ _ e. e ≡ OutOfMemory };

    fn from(_fault: AllocError) -> Stop {
        Stop::OutOfMemory
    }
}

/// What was found, or that it has no value; any other `Stop` stays.
pub fn outcome<T: Drop>(found: Result<T, Stop>) -> Result<Option<T>, Stop>
    ensures { result ≡ outcome_of found }
{
    match found {
        Ok(value) => Ok(Some(value)),
        Err(Stop::NoValue) => Ok(None),
        Err(Stop::Waits(cell)) => Err(Stop::Waits(cell)),
        Err(Stop::OutOfMemory) => Err(Stop::OutOfMemory),
    }
}

/// Stops; the part is dropped.
pub fn stopped<T: Drop, R: Drop>(stop: Stop, _part: T) -> Result<R, Stop>
    ensures { result ≡ Err stop }
{
    Err(stop)
}

/// Out of memory; the part is dropped.
pub fn lacks_memory<T: Drop, R: Drop>(_part: T) -> Result<R, AllocError>
    ensures { IsErr result }
{
    Err(AllocError)
}

/// Drops the part.
pub fn let_go<T: Drop>(_part: T) {}
