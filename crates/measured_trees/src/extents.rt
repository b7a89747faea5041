//! The extents of the expressions in a value.
ghost use Rattle.bicep_resolved.specs.View.{source_of};
ghost use Rattle.measured_expressions.specs.Sight.{Sight};
ghost use Rattle.measured_expressions.specs.Spans.{Measures};
ghost use Rattle.tree_building.specs.Sight as spec;

use arm_value::OutOfMemory;
use bicep_resolved::Source;
use emitted_sizes::Extent;
use measured_expressions::Span;
use std::alloc::Global;

/// The extents of what the expressions of a file become. The loops around an expression are given by the extents of
/// their runs, the nearest first.
pub trait Extents {
    /// The file, and what its declarations become.
    ghost sight: { Self → Sight };

    /// How much of the limits an expression takes.
    fn extent(&self, alloc: Global, e: &Source, spans: &[Span]) -> Result<Extent, OutOfMemory>
        ensures { Measures spans.now result (spec.expression (sight self.now) (source_of e.now)) };
}
