//! What the reader of Bicep does at a token in an object, and before and after a body.
//!
//! A caller may rely on it that each function gives what its step of the machine gives (`specs/Machine`
//! of `bicep_machine`): where the token leads, and what is open there. `Refused` comes exactly where
//! the machine has no step, unless memory was refused; nothing is said of the stack then. There is a
//! function for each state of an object or a body; those of expressions are in `bicep_expressions`.
#![tactic(auto)]

mod bodies;
mod objects;

pub use bodies::{
    begin_body, begin_condition, begin_guarded, begin_looped_body, end_loop, go_on_among,
};
pub use objects::{go_on_label, member, past_member};
