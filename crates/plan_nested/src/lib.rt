//! The nested deployments that an expression of a deployment sees, by their keys.
//!
//! `seek` returns where the nested deployment at a key is: in the scope of the expression, or else outwards through
//! outer scopes. `look_deployment`, `look_output` and `look_outputs` return what is told of it by a table. Contracts
//! see this as what is told of the readings of `plan_cells::specs::Sites`.
#![tactic(auto)]

pub mod look;
pub mod outputs;
pub mod seeking;

pub use plan_listing::listing::entry_of;
