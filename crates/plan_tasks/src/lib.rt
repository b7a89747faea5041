//! The tasks of a deployment, by what is known of it at its start: a table that was filled.
//!
//! `list_tasks` lists the tasks of all scopes in their order, by the numbers of the frames of the table. It needs that
//! all counts, conditions and names have values; `find_unanswered` finds one that has none. The laws are in `laws`.
#![tactic(auto)]

pub mod answered;
pub mod instance;
pub mod keys;
pub mod laws;
pub mod listing;
pub mod task;

pub use answered::find_unanswered;
pub use keys::{key_at, list_keys};
pub use listing::list_tasks;
pub use task::ScopeTask;
