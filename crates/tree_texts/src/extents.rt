//! The extents of expressions.

use crate::expressions::Expressions;
use arm_value::OutOfMemory;
use bicep_resolved::Source;
use emitted_sizes::Extent;
use measured_expressions::{Sizes, Span, measured};
use measured_trees::Extents;
use std::alloc::Global;

impl<'a, K: Sizes> Extents for Expressions<'a, K> {
    ghost sight = { λ x. K.sight x.declarations.now };

    fn extent(&self, alloc: Global, e: &Source, spans: &[Span]) -> Result<Extent, OutOfMemory> {
        measured(alloc, self.declarations, e, spans)
    }
}
