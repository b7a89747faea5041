//! The numbers of the tasks of a plan: of the one that puts at a key, and of those that enter and leave a scope.
//!
//! `number_tasks` makes `Numbers` of a plan, and `putter_of`, `enter_of` and `leave_of` look one up. `specs/Numbers`
//! has the definitions.
#![tactic(auto)]

mod checking;
mod looking;
mod numbering;
mod numbers;

pub use history_plans::{Plan, Task};
pub use looking::{enter_of, leave_of, putter_of};
pub use numbering::number_tasks;
pub use numbers::Numbers;
