//! Why a value of a template that may have expressions and loops in it is refused.
//!
//! `specs/Order` says in which order faults decide, `specs/Values` why a value is refused.
#![tactic(auto)]

mod names;
pub mod order;
mod parts;
mod value;

pub use names::{is_copy, loop_name};
pub use value::value_fault;
