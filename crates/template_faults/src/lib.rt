//! Why a JSON value is refused as a template.
//!
//! `template_fault` returns the fault of a value, or none where it is a template. `specs/Faults` says which fault a
//! value has; it rests on `specs/Header` (the members of a template), `specs/Properties` (those of a nested
//! deployment), `specs/Sights` (which names expressions see) and `specs/Counts` (limits).
#![tactic(auto)]

mod count;
mod header;
mod inside;
mod join;
mod limit;
mod names;
mod properties;
mod sight;
mod symbol;

pub use inside::template_fault;
