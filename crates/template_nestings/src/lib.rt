//! How deep the value nests that is written of a template.
//!
//! A caller may rely on `nesting`: it returns how deep the value nests that `write_template` of `template_writer` would
//! return, before it is made. `specs/Nestings` says it by the parts of a template, and `laws` that it is so.
#![tactic(auto)]

pub mod laws;
mod nests;
mod parts;
mod templates;

pub use templates::nesting;
