// Parts that are dropped where memory is out.

ghost use Rattle.std.specs.Prelude.{◌≡◌, false, is_ok};

use arm_value::OutOfMemory;
use std::alloc::AllocError;

/// Fails; the part is dropped.
pub fn run_out<T: Drop, R: Drop>(_part: T) -> Result<R, OutOfMemory>
    ensures { is_ok result ≡ false }
{
    Err(AllocError)
}
