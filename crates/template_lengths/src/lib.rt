//! How many bytes the compact JSON of a template has, and that it has in it that of each of its nested deployments.
//!
//! A caller may rely on `length` and `added`, and on the law of `laws`. `specs/Lengths` says what they count.
#![tactic(auto)]

pub mod laws;
mod lengths;

pub use lengths::{added, length};
