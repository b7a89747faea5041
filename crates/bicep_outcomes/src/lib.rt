//! What is made of the values of the parts of a Bicep expression.
//!
//! A caller may rely on `specs/Outcomes`: how what is returned follows from what is given, a value or a `Stop`, and on
//! `proofs/OutcomeLemmas`, which carry this over to readings. What operators, accesses and functions give is defined in
//! `bicep_meaning`. No function here knows an expression.
#![tactic(auto)]

pub mod accesses;
pub mod calls;
pub mod joins;
pub mod literals;
pub mod loops;
pub mod operators;
pub mod parts;
pub mod stop;

pub use stop::Stop;
