//! What is wrong with a Bicep program before any type is looked at.
//!
//! A caller may rely on `specs/Faults`: when each fault holds of a program, and on `specs/Order`: which of several is
//! returned. `resolve` returns the program with all its names found exactly where no fault holds. It recurses as deep
//! as resources and expressions nest.
#![tactic(auto)]

mod arguments;
mod circles;
mod decorators;
mod fault;
mod places;
mod resolving;

pub use fault::CheckFault;
pub use resolving::resolve;
