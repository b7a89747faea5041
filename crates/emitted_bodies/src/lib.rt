//! The members of resources of a template that the fields of Bicep resources become.
//!
//! A caller may rely on `built_body`: it returns these members as `specs/Bodies` says, or finds no memory, and on
//! `measured_body`: how much of the limits of templates they take.
#![tactic(auto)]

mod building;
mod fields;
mod measured;

pub use building::built_body;
pub use measured::measured_body;
