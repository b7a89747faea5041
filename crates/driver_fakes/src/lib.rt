//! Fakes for tests of whoever drives deployments: a book in memory, a dealer that deals jobs by their
//! needs, and a pair of providers that answer whether their calls overlap.
//!
//! A caller may rely on exactly what each call of `MemBook` and of `ScriptedDealer` answers, and on
//! which answers a `Pairing` may give. Notes are defined in `specs/Kept.antt`, what a book answers in
//! `specs/Answers.antt`, and what a dealer deals in `specs/Dealing.antt`.
#![tactic(auto)]

mod dealt;
mod mem_book;
mod notes;
mod pairing;
mod readiness;
mod scripted_dealer;
mod stage;

pub use mem_book::{FRAME, MemBook};
pub use notes::Entry;
pub use pairing::{Pairing, TURNS};
pub use scripted_dealer::ScriptedDealer;
pub use stage::Stage;
