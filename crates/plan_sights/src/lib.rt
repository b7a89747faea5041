//! What an expression sees of a table: the evaluator asks a `Sight` for each cell that the expression looks at.
//!
//! `Sight` implements `arm_env::entries::Entries` for expressions whose texts are ids alone, or names of resources.
//! Contracts see what is known of a cell as what is told of the reading `looked_up` of `plan_cells::specs::Sites`.
#![tactic(auto)]

pub mod lacking;
pub mod laws;
pub mod sight;

pub use plan_names::look;
