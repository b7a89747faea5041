//! Sets of names: one that compares them after ASCII case folding, and one that compares them letter by letter.
//!
//! A contract sees a set as the list of the names that were added, the oldest first; `specs/Names` says which names are
//! in it. Looking a name up takes time in the order of log n for n names.
#![tactic(auto)]

mod set;
mod text_set;

pub use set::NameSet;
pub use text_set::TextSet;
