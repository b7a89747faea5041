//! What the reader of Bicep does at a token in an expression.
//!
//! A caller may rely on it that each function gives what its step of the machine gives (`specs/Machine`
//! of `bicep_machine`): where the token leads, and what is open there. `Refused` comes exactly where
//! the machine has no step, unless memory was refused; nothing is said of the stack then. There is a
//! function for each state of an expression; those of objects are in `bicep_objects`, and those of
//! statements in `bicep_statements`.
#![tactic(auto)]

mod ends;
mod expressions;

pub use ends::{end_at_late_colon, end_at_newline};
pub use expressions::{
    access_on, ask, begin_arguments, go_on, go_on_name, go_on_qualified, item, qualify, want_on,
};
