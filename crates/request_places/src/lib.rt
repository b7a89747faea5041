//! Where the deployment of a request is made.
//!
//! `place_of` returns the place of a group and a deployment by their names, at the location of the group. The law says
//! that neither the subscription nor the group of names in form has a slash. `specs/Places.antt` has the place.
#![tactic(auto)]

pub mod laws;
mod places;

pub use places::place_of;
