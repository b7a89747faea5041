//! The place of the expressions of a scope, by what a table has.
//!
//! `place::place_of` returns the place of the nearest scope outwards that is not outer: that of the root, with the name
//! of the nested deployment that opened the scope. Contracts see this as what is told of the reading `own_place` of
//! `plan_cells::specs::Scopes`.
#![tactic(auto)]

pub mod place;

pub use plan_nested::{look, outputs};
