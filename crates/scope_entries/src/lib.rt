//! The parameters and variables of a scope, which are told when it is entered.
//!
//! `settle` tells each of them by what is known at a point of the deployment, and keeps its value beside the table of
//! the start. It returns what one of them waits for, or which has no value. `specs/Entries` says what is returned.
#![tactic(auto)]

pub mod answer;
pub mod keeping;
pub mod lines;
pub mod settling;

pub use point_cells::{body, declared, register, values};
