//! What is read back of a JSON text is what was written.
//!
//! `know_characters` shows that the texts in a value have characters alone, and the law `read_once` that a JSON text
//! gives no two such values. `specs/Characters.antt` says what this means.
#![tactic(auto)]

pub mod laws;
mod walking;

pub use walking::know_characters;
