//! Whole names and conditions of resources, kept with their extents.
//!
//! A caller may rely on `joined`, which returns a name after that of a parent, or a condition with that of a parent, as
//! `emitted_declarations` says in `specs/Declared`, made only where it is within the limits (`kept_expressions`).
#![tactic(auto)]

mod joints;

pub use joints::{Joint, always, joined};
