//! Which task of a deployment needs which, by what is known of it at its start.
//!
//! `needs_of_tasks` lists the pairs for the tasks of a table that was filled and for deletes, with the values of the
//! elements of `dependsOn`. It looks tags up (`plan_codes` has those of tasks), so that no task is compared with each
//! other one. `specs/Needs` says what is listed.
#![tactic(auto)]

mod batch;
mod deletes;
mod instance;
mod loops;
mod needs;
mod order;
mod tasks;

pub use needs::needs_of_tasks;
