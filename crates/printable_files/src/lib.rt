//! What a Bicep file becomes in a template has names and numbers of the grammar of template expressions.
//!
//! A caller may rely on `laws`, and on `specs/Printable`, which says what a file and its values must have. There is no
//! other code.
#![tactic(auto)]

pub mod laws;
