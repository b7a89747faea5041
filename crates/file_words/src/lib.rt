//! Bicep files that are read have names that template expressions can have, and texts with few holes.
//!
//! A caller may rely on `laws`. `specs/Words` says which trees have such names. There is no other code.
#![tactic(auto)]

pub mod laws;
