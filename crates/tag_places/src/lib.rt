//! For each tag the first place in a list that has it.
//!
//! `first_place` looks a tag up in `Places`, and `add_place` adds a place to them. `specs/Places` has the definitions;
//! what holds of places without a tag is in `laws`.
#![tactic(auto)]

pub mod laws;
mod places;

pub use places::{Places, add_place, first_place, no_places};
