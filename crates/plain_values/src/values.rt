// Values as they are meant, and as a template writes them.

ghost use Rattle.std.specs.Prelude.{◌≡◌, map, IfOk};
ghost use Rattle.plain_values.specs.Plain.{meant, written_plainly};

use crate::texts::{Change, items_texts};
use arm_value::{Items, OutOfMemory};
use std::alloc::Global;

/// The values that these values of a template are: each text as it is meant. A text that is an expression is unchanged.
pub fn meant_items(alloc: Global, items: &Items) -> Result<Items, OutOfMemory>
    ensures { IfOk result (λ js. js ≡ map meant items.now) }
{
    items_texts(alloc, Change::Meant, items)
}

/// The values as a template writes them, so that each means itself.
pub fn items_written_plainly(alloc: Global, items: &Items) -> Result<Items, OutOfMemory>
    ensures { IfOk result (λ js. js ≡ map written_plainly items.now) }
{
    items_texts(alloc, Change::Written, items)
}
