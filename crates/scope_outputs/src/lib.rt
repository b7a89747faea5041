//! The outputs of a scope, which are told when it is left.
//!
//! `offer` tells each of them by what is known at a point of the deployment, or returns what one of them waits for.
//! `keep` puts them beside the table of the start once the scope was left. `specs/Outputs` says what is returned, and
//! what may be kept.
#![tactic(auto)]

pub mod keeping;
pub mod offering;
pub mod telling;

pub use scope_entries::{answer, body, declared, lines, register, settling, values};
