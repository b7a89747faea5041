//! That the parts of a Bicep file fit their places by their types.
//!
//! A caller may rely on `specs/Files`: the place of the first part of a file that does not fit, by recursion on its
//! declarations and outputs. `specs/Places` says what the places of declarations take, `specs/Parameters` what an
//! argument of a module has to be. The type of an expression is in `bicep_typing`. No call takes memory.
#![tactic(auto)]

mod fields;
mod files;
mod parameters;
mod places;

pub use files::file_fits;
