// Texts put together, and parts that are dropped.

ghost use Rattle.std.specs.Prelude.{◌≡◌, ◌++◌, chars, IfOk};

use arm_value::{OutOfMemory, Text};
use std::alloc::{AllocError, Global};

/// Out of memory; the part is dropped.
pub(crate) fn run_out<T: Drop, R: Drop>(_part: T) -> Result<R, OutOfMemory>
    ensures { IfOk result (λ _. ⊥) }
{
    Err(AllocError)
}

/// The first text, the text between, and the last.
pub(crate) fn joined(
    alloc: Global,
    first: &str,
    between: &str,
    last: &str,
) -> Result<Text, OutOfMemory>
    ensures { IfOk result (λ t. t ≡ chars first.now ++ (chars between.now ++ chars last.now)) }
{
    let text = format!(in alloc; "{first}{between}{last}")?;
    Ok(Text::from_string(text))
}
