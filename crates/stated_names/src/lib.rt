//! The names in templates that values state.
//!
//! `arm_template` says which template a value states, `plan_cells` when the names in a template differ. The law is that
//! the names of one sort differ in each template that a value states, and in all templates inside.
#![tactic(auto)]

mod laws;

pub use laws::stated_names_differ;
