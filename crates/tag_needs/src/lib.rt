//! Which of many things needs which, by tags, without comparing each with each.
//!
//! Each thing has tags and asks for tags. `list_needs` lists the pairs of one that asks and of one that has a tag for
//! which it asks; `find_shared` finds two that share a tag. `specs/Tags` has the definitions, `laws` what
//! holds of them.
#![tactic(auto)]

pub mod laws;
mod needs;
mod numbers;
mod shared;

pub use needs::list_needs;
pub use shared::find_shared;
