//! Seats that work side by side, and the driver that deals jobs to them.
//!
//! A caller may rely on what a `drive` has done: the calls of each seat's provider are the jobs that
//! the dealer began with that seat's number, in order and one at a time; the dealer was given an
//! answer only where its note was taken; each other Begin has its Back. One course of actions says it all
//! (`specs/Driven.antt`). `run_round` makes one call of each seat that has a job.
#![tactic(auto)]

mod driver;
mod driving;
mod rig;
mod rooms;
mod tasking;

pub use driver::drive;
pub use driver_loop::DriveFault;
pub use seat_calls::{Seat, run_round};
