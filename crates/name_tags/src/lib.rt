//! The names of instances, and the texts of `dependsOn` that name them, as tags.
//!
//! A tag is a list of numbers, by which `tag_needs` looks it up; `plan_codes` says which tags an instance has and for
//! which an element of `dependsOn` asks. `push_names` and `push_asks` list them.
#![tactic(auto)]

pub mod asks;
pub mod loops;
pub mod names;
mod tag;

pub use asks::push_asks;
pub use loops::loops_of;
pub use names::{Titled, push_names};
