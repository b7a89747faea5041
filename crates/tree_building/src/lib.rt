//! JSON of templates for Bicep values outside of expressions.
//!
//! `tree` builds what a value becomes, as `emitted_trees` says (`specs/EmittedTrees`, `specs/Written`), or finds no
//! memory. The texts of its expressions come from an implementation of `Texts`. `specs/Built` says what is returned.
#![tactic(auto)]

pub mod literals;
mod parts;
pub mod texts;
pub mod trees;

pub use parts::{Looped, Parts, Written, fields_of, no_parts};
pub use texts::Texts;
pub use trees::{tree, with_member, written};
