//! How much of the limits Bicep values take in a template outside of expressions, before they are built.
//!
//! A caller may rely on `measured_tree` and `measured_written`: they return how long the longest text of an expression
//! is, how deep the deepest expression nests, and how deep the value itself does (`specs/Extremes`), or no memory. The
//! extents of expressions come from an implementation of `Extents`. `Measure::beyond` returns the limit that a value
//! is beyond (`specs/Limits`), and `laws` says that what is beyond none can be built.
#![tactic(auto)]

mod extents;
pub mod laws;
mod limits;
mod measure;
pub mod spans;
mod trees;

pub use extents::Extents;
pub use limits::Beyond;
pub use measure::{Measure, of_expression};
pub use trees::{measured_tree, measured_written};
