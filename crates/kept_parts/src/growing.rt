//! How expressions grow that have no holes.
ghost use Rattle.std.specs.Prelude.{◌≡◌, IfOk};
ghost use Rattle.arm_expr.specs.Tree.{Tree};
ghost use Rattle.emitted_parts.specs.Emitted.{Frame};
ghost use Rattle.emission_laws.specs.Holes.{fill};
ghost use Rattle.emitted_sizes.specs.Extent.{IsOf};
ghost use Rattle.kept_expressions.specs.Growth.{Grows};

use arm_value::OutOfMemory;
use emitted_sizes::Extent;
use kept_expressions::Holed;
use kept_expressions::probes::{Probed, holed};

/// How an expression without holes grows: not at all.
pub fn still(extent: Extent) -> Result<Holed, OutOfMemory>
    ensures { (t : Tree) → ((f : Frame) → fill f t ≡ t) → IsOf t extent → IfOk result (Grows t) }
{
    holed(Probed {
        least: extent,
        wide_item: extent,
        wide_index: extent,
        deep_item: extent,
        deep_index: extent,
    })
}
