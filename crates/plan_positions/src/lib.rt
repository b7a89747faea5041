//! Where the instances of a deployment are, as texts: the path of each resource with the index of its loop after it.
//!
//! `Texts` of `plan_paths` says what a position is.
#![tactic(auto)]

mod positions;

pub use positions::{instance_position, scope_position};
