//! The table of what the declarations of a Bicep file become in a template, filled.
//!
//! A caller may rely on `table_of`: the table that it returns has what `emitted_declarations` says of each declaration
//! (`declared_table`). It makes each declaration once, in an order in which each comes after those that it mentions.
#![tactic(auto)]

mod entries;
mod filling;
mod heads;
mod names;
mod parents;
mod parts;
mod reaching;
mod variables;

pub use filling::table_of;
