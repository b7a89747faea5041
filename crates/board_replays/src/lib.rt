//! Recorded answers are played again on a board on which nothing has happened.
//!
//! `specs/Replays.antt` says what the history is then, and where answers do not follow.
#![tactic(auto)]

pub mod answering;
pub mod laws;
mod noted;
mod playing;
pub mod replaying;
mod testing;

pub use noted::{BoardFault, Noted};
