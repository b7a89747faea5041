//! Metadata by numbers.
ghost use Rattle.std.specs.Prelude.{◌≡◌, IfOk};
ghost use Rattle.emitted_values.specs.Metadata.{metadata_at};

use arm_value::{OutOfMemory, Value};
use std::alloc::Global;
use template_parts::copy_option;

/// A copy of the metadata of a number in a list; where there is no such number, there is no metadata.
///
/// # Errors
///
/// `OutOfMemory`.
pub fn copied_metadata(
    alloc: Global,
    metadata: &[Option<Value>],
    number: usize,
) -> Result<Option<Value>, OutOfMemory>
    ensures { IfOk result (λ m. m ≡ metadata_at metadata.now number) }
{
    match metadata.get(number) {
        Some(metadata) => copy_option(alloc, metadata),
        None => Ok(None),
    }
}
