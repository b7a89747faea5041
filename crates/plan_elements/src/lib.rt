//! The values of the elements of `dependsOn` at the start of a deployment.
//!
//! `elements_of_tasks` evaluates, for each task of the scopes of a table that was filled, the elements of the instance
//! that the task starts, or returns one that has no value and why. `specs/Elements` says what an element reads.
#![tactic(auto)]

mod elements;

pub use elements::{Unread, elements_of_tasks};
pub use plan_needs::needs_of_tasks;
