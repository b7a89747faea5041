//! The expressions in the texts of templates: which functions they call, what they name, and why a text is refused.
//!
//! `specs/Sound` says which expressions call functions that are there and name parameters and variables that are there;
//! `specs/Texts` says why a text of a template is refused.
#![tactic(auto)]

mod reference;
mod sight;
mod sound;
mod text;

pub use sight::{Place, Sight};
pub use text::text_fault;
