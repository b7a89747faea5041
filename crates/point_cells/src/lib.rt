//! The values of the cells of a scope at a point of a deployment: its parameters, variables and outputs.
//!
//! Each function returns the value of one cell before its rule is asked, or which line or state it waits for. Contracts
//! see this as what is told of the reading `raw` of `plan_cells::specs::Meaning` by the rows of the point.
#![tactic(auto)]

pub mod parameters;
pub mod values;

pub use plan_values::declared;
pub use point_sights::{body, register};
