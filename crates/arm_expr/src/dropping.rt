// Ends of functions that drop what they were given. The drop of a large value is proved once here,
// and not in each function that gives one up.

ghost use Rattle.std.specs.Prelude.{◌≡◌, Err, None, IsErr};
ghost use Rattle.foundation.specs.declared.stop.Stop.TheVariants.{Refused, OutOfMemory};

use foundation::Stop;
use std::alloc::AllocError;

/// Stops because no expression continues this way; drops the part.
pub fn refuse<T: Drop, R: Drop>(_part: T) -> Result<R, Stop>
    ensures { result ≡ Err Refused }
{
    Err(Stop::Refused)
}

/// Stops because memory was refused; drops the part.
pub fn run_out<T: Drop, R: Drop>(_part: T) -> Result<R, Stop>
    ensures { result ≡ Err OutOfMemory }
{
    Err(Stop::OutOfMemory)
}

/// Memory was refused; drops the part.
pub fn lacks_memory<T: Drop, R: Drop>(_part: T) -> Result<R, AllocError>
    ensures { IsErr result }
{
    Err(AllocError)
}

/// Nothing in place of the part, which is dropped.
pub fn nothing<T: Drop, R: Drop>(_part: T) -> Option<R>
    ensures { result ≡ None }
{
    None
}
