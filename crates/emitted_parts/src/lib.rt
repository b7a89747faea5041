//! Template expressions of Bicep constructs, built of the expressions of their parts.
//!
//! A caller may rely on each function returning the expression that its construct becomes, as `bicep_emission` says in
//! `specs/Emitted`, or no memory. A part is given as it was built, so one that could not be built is passed on.
//! `specs/Built` says what is returned.
#![tactic(auto)]

pub mod accesses;
pub mod calls;
pub mod copies;
pub mod functions;
mod lists;
pub mod literals;
pub mod operators;
pub mod states;
pub mod texts;

pub use lists::{lacks, letting_go, with};
