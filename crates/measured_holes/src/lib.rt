//! How the extents of template expressions with holes grow with what is put into the holes.
//!
//! A caller may rely on `probes::holed`, which returns how an expression grows by its extents with five runs of a loop
//! in its holes, and on `Holed::filled`, which returns its extent for any run. `specs/Growth` says how an extent grows.
#![tactic(auto)]

mod holed;
mod measured;
pub mod probes;

pub use holed::Holed;
pub use measured::{measured_holes, measured_value_holes};
