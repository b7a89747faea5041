//! What a text of `reference` names in a template of the first form: a resource of the template, or a nested deployment
//! around.
//!
//! `look_named` returns the key that a text names by what is known of the names of a table. Contracts see this as what
//! is told of the reading `named_at` of `plan_cells::specs::Sites`.
#![tactic(auto)]

pub mod around;
pub mod gather;
pub mod look;
pub mod spelled;
