//! The arguments of the modules of a Bicep file, beside the parameters of their files.
//!
//! A caller may rely on `specs/Arguments`: the first module whose arguments do not fit the parameters of its file: an
//! argument names no parameter, or a parameter without a default has no argument. `specs/Parameters` says which
//! parameters a file has. `bad_argument` recurses as deep as parentheses nest around `params`.
#![tactic(auto)]

mod arguments;
mod fault;
mod fields;
mod modules;
pub mod parameters;

pub use fault::ArgumentFault;
pub use modules::bad_argument;
pub use parameters::{Parameters, parameters_of};
