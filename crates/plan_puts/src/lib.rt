//! Two instances of a deployment that are put and have one key.
//!
//! `find_same_put` finds them by tags of the lines of a filled table, so that no key is compared with each other one.
//! `specs/PutTags` has the tags.
#![tactic(auto)]

mod same;

pub use same::find_same_put;
