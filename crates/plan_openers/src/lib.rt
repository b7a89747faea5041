//! Which instance of a nested deployment opened a scope of a table, and two nested deployments of one scope that have
//! one key.
//!
//! `specs/Openers` says what an opener is, `specs/SameNested` what two scopes with one key are.
#![tactic(auto)]

pub mod opener;
pub mod same;

pub use opener::{Opener, opener_of};
pub use same::find_same_nested;
