//! How much of the limits the template expressions of Bicep expressions take, before they are made.
//!
//! A caller may rely on `measured` and `measured_value`: they return the extent of the expression that `bicep_emission`
//! says in `specs/Emitted`, or no memory. The trait `Sizes` has the extents of what the declarations of a file become.
#![tactic(auto)]

mod expressions;
mod fields;
mod sizes;
mod spans;

pub use expressions::{measured, measured_value};
pub use sizes::Sizes;
pub use spans::Span;
