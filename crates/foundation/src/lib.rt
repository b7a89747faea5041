//! What every other crate would write again: limits, why a reader stops, and lemmas on truth values, words and loops.
//!
//! `limits` names each limit of the language and of the service, with its unit. `Stop` is the error
//! of functions that take a text or a file apart and that have nothing else to say of what they do
//! not accept; `specs/Stopping` is the contract that they have in common. The lemmas are for proofs
//! alone, and are about nothing of this repository.
#![tactic(auto)]

pub mod limits;
mod stop;

pub use stop::Stop;
