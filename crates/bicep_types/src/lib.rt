//! Bicep programs whose names, places and types are checked.
//!
//! A caller may rely on `specs/Faults`: when each fault holds of a program and which of several is returned, and on
//! `specs/Checked`: what a checked program has. `check` returns it exactly where no fault holds. It recurses as deep as
//! resources and expressions nest.
#![tactic(auto)]

mod checked;
mod checking;
mod fault;
mod files;
mod metadata;
mod untyped;

pub use checked::{Checked, Types};
pub use checking::check;
pub use fault::CheckFault;
