//! The existing resources of the template that a Bicep file becomes in the second form.
//!
//! A caller may rely on `specs/Existing` and the law. There is no other code.
#![tactic(auto)]

pub mod laws;

pub use file_limits::laws::files_within_the_limits_fit;
pub use file_limits::{
    Measure, Table, measured_file, template, templates_have_metadata,
    templates_have_the_parts_of_the_file,
};
