//! Which symbols of a Bicep file read state, which variables have an entry, and which are misplaced.
//!
//! A caller may rely on `specs/View`: what a table says of the symbols of a file, and on the definitions of
//! `bicep_mentions`: which symbols read state, and which variables have an entry. `state_table` looks at each
//! declaration once, in an order in which each comes after those that it mentions.
#![tactic(auto)]

mod entries;
mod names;
mod reads;
mod table;

pub use entries::{has_entry, misplaced_variable};
pub use table::{StateTable, state_table};
