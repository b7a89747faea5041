//! Keys as lists of numbers, by which they are looked up among tags, and two keys of a list that are the same.
//!
//! `specs/KeyCodes` has the numbers of a key. The law is in `laws`.
#![tactic(auto)]

mod code;
pub mod laws;
mod parent;
mod same;

pub use code::key_tag;
pub use parent::parent_tag;
pub use same::find_same;
