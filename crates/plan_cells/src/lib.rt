//! What the parts of a template are when it is deployed: the value of each cell as a reading of other cells.
//!
//! `specs/Meaning` has the reading of each cell, `specs/Sites` what an expression reads by where it is,
//! `specs/Desired` the desired states of a template, `specs/Tasks` and `specs/Needs` its tasks and which of them needs
//! which, and `specs/Start` what is known at the start and at each point of a deployment. The laws are in `laws`;
//! there is no other code.
#![tactic(auto)]

pub mod laws;

pub use arm_eval::symbols::key_at;
pub use template_parameters::first_breach;
