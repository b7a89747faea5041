//! Templates that are read and written again.
//!
//! Where a value has no fault (`template_faults`) and describes a template (`template_meaning`), what is written of
//! this template (`template_written`) has no fault either, and nests no deeper. So it can be written, and read again.
#![tactic(auto)]

mod laws;

pub use laws::{written_templates_have_no_fault, written_templates_nest_no_deeper};
