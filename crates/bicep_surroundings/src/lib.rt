//! What surrounds a Bicep expression, and what its names and fields have there.
//!
//! A caller may rely on `specs/Sight`: how the cells, the declarations of the file and the loops around come in. The
//! trait `Surroundings` looks them up; `named`, `field_of` and `output_of` return what names, fields of resources and
//! outputs of modules mean (`bicep_meaning`).
#![tactic(auto)]

mod names;
mod surroundings;

pub use names::{field_of, named, output_of};
pub use surroundings::Surroundings;
