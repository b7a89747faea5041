//! Why a deployment has no plan, where an element of `dependsOn` names nothing, or instances with two keys.
//!
//! `check_dependencies` returns the fault, or nothing where there is none. It looks names up, so that no element is
//! compared with each instance. `specs/Names` has the names and keys that it looks up, `specs/Met` what it asks of the
//! elements of an instance.
#![tactic(auto)]

mod check;
mod element;
mod fault;
mod names;

pub use argument_faults::check_arguments;
pub use check::check_dependencies;
