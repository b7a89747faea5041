//! Plans: what a deployment of a template does, or why it can do nothing.
//!
//! `plan` returns the plan of a deployment, with its tasks, the keys of its puts and its needs, or a `PlanFault`.
//! `specs/Accepted` says what holds of a plan, `plan_faults` when a fault is true (`specs/Faults`).
#![tactic(auto)]

mod checking;
mod numbering;
mod planning;

pub use plan_assembly::plan::{Plan, Task};
pub use plan_faults::PlanFault;
pub use planning::plan;
