//! What is known of a deployment at its start.
//!
//! A `Start` is the sheet of a deployment: the table, whose cells are told by `plan_values`. `start::known_at_start`
//! fills it as far as it goes, or returns cells that wait for one another. Contracts see a filled sheet as
//! `plan_filling` does.
#![tactic(auto)]

pub mod sheet;
pub mod start;

pub use plan_values::values::raw_value;
