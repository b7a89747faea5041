//! Bicep files whose names are found: what each name, field and element stands for.
//!
//! A caller may rely on `specs/View`: which tree a value of these types represents (`specs/Source`). A symbol is a
//! number, its place among the symbols of its file in source order; a loop is given by how many loops are between it
//! and the name. Each node has its place in the file, an offset in bytes (`specs/Place`). Parentheses and a `!` after a
//! value leave no node.
#![tactic(auto)]

pub mod leaf;
mod place;
pub mod source;
mod target;

pub use leaf::{Field, Meaning, Selector, Target};
pub use source::{Piece, Property, Reach, Source, SourceLoop, SourceValue};
