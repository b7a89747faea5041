//! The states that values wait for, at a point of a deployment.
//!
//! `take_state` looks a state up in the history where a task puts it, else in what is held, and keeps it. `specs/Lookups`
//! has the definitions.
#![tactic(auto)]

mod taking;

pub use plan_numbers::{Numbers, Plan, Task, leave_of, number_tasks};
pub use taking::{Taken, take_state};
