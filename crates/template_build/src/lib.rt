//! Templates out of values.
//!
//! `build` returns the template that a value describes (`Describes` of `template_meaning`). It is total: whether the
//! value has a fault is decided before.
#![tactic(auto)]

mod body;
mod joined;
mod tree;

pub use tree::build;
