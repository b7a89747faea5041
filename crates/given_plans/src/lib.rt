//! Plans that are given as tables, for tests of boards.
//!
//! A plan has scopes in one another and instances of one resource, in any order, and each put is ready once the batch
//! before it is done. `specs/Given.antt` says what is deployed by it.
#![tactic(auto)]

mod listing;
mod needing;
mod open_tasks;
mod plan;
mod standing;

pub use open_tasks::is_open;
pub use plan::{GivenPlan, GivenTask, Naming};
