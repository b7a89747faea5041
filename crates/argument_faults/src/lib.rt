//! Why a deployment has no plan, where a nested deployment gives something for a parameter that its template lacks.
//!
//! `check_arguments` returns a fault, or nothing where there is none. `specs/Extra` says what it looks for in scopes.
#![tactic(auto)]

mod arguments;
mod check;

pub use check::check_arguments;
