//! The value of each cell of a deployment, by what a table has of other cells.
//!
//! `values::raw_value` returns the value of the cell of a line before its rule is asked, or which cell or state it
//! waits for. Contracts see this as what is told of the reading `raw` of `plan_cells::specs::Meaning`.
#![tactic(auto)]

pub mod content;
pub mod declared;
pub mod instances;
pub mod names;
pub mod parameters;
pub mod scopes;
pub mod values;

pub use plan_telling::{register, source};
