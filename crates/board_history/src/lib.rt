//! The history of a deployment, with how far each of its tasks is.
//!
//! A `History` keeps the events and nothing of them twice: a state that was stored is found in the event that has it.
//! `specs/Past.antt` says what a history is to contracts. What an open Begin ends by takes no memory.
#![tactic(auto)]

mod history;
mod noting;
mod stage;

pub use history::{History, letting_go};
