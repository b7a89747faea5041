//! The loop of a driver, which deals jobs to seats and settles their results, over any `Crew`.
//!
//! A caller may rely on what the driver has done: which jobs it handed to which seat, which results it
//! took, that the dealer was given an answer only where its note was taken, and how it ended. These
//! actions are defined in `specs/Actions.antt`, what follows from them in `specs/Runs.antt` and
//! `specs/Courses.antt`, and how a drive ends in `specs/Ends.antt`.
#![tactic(auto)]

mod action;
mod asking;
mod crew;
mod fault;
mod open_job;
mod running;
mod settling;

pub use action::Action;
pub use asking::deal;
pub use crew::Crew;
pub use fault::{DriveFault, Ended};
pub use open_job::{OpenJob, has_no_job, is_of_open_job};
pub use running::run;
pub use settling::settle;
