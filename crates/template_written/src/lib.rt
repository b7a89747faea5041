//! How templates are written.
//!
//! `specs/Written` says which value states a template: each member under its canonical name, and what may be left out
//! is left out. A template that keeps the rules of `specs/Keeps` is described by this value, and each template that a
//! value describes keeps them.
#![tactic(auto)]

mod laws;

pub use laws::{described_templates_keep_the_rules, written_templates_are_described};
