//! What the tasks of a plan are for: the id of the resource that is put or deleted, as it is spelled, with the version
//! of its type; and the position of the scope that is entered or left.
//!
//! `aim_of` and `place_of` find it by the number of the task. `specs/Aims` has the definitions.
#![tactic(auto)]

mod aims;
mod places;

pub use aims::aim_of;
pub use places::place_of;
pub use point_states::{Numbers, Plan, Taken, Task, leave_of, number_tasks, take_state};
