//! Template expressions that are made only where they are within the limits, and are kept with their extents.
//!
//! A caller may rely on `specs/Kept`: an expression is there exactly where its text and its nesting are within the
//! limits of template expressions, and is the one that `bicep_emission` says. What is beyond a limit is never made.
//! `filled` puts the item and the index of a loop into the holes of an expression.
#![tactic(auto)]

mod filling;
mod keeping;
mod making;

pub use filling::{filled, hole_turns};
pub use keeping::{
    Kept, KeptHoles, beyond, beyond_holes, is_within, keep, keep_holes, least_extent,
};
pub use making::{made, made_holes, made_value, made_value_holes};
pub use measured_expressions::Span;
pub use measured_holes::{Holed, probes};
