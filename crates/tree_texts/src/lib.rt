//! The texts and the extents of the expressions in Bicep values, over what declarations become.
//!
//! `Expressions` implements `Texts` of `tree_building` over any `Declarations`, and `Extents` of `measured_trees` over
//! any `Sizes`.
#![tactic(auto)]

pub mod building;
mod expressions;
mod extents;
pub mod turns;

pub use building::{TreeFault, built_tree, built_value};
pub use expressions::{Expressions, printed_text};
