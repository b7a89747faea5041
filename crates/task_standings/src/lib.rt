//! How the tasks of a plan stand at a point of a deployment: ready, waiting for another task, or without a value.
//!
//! `specs/Standings.antt` says what this means by a part of what is known, and the trait `Standings` is what a board
//! asks for it. The laws are in `laws`; there is no other code.
#![tactic(auto)]

pub mod laws;
mod standing;
mod standings;

pub use point_values::laws::seen_stays;
pub use standing::{Aim, Failing, Kind, RootOutput, Standing, TaskFault};
pub use standings::Standings;
