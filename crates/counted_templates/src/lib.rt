//! The template of a Bicep file has as few parts as a template may have.
//!
//! A caller may rely on `laws`: where `first_beyond` of `file_counts` finds nothing, no list of the template that
//! `template` of `emitted_templates` makes is too long. There is no other code.
#![tactic(auto)]

pub mod laws;

pub use existing_templates::laws::templates_have_existing_resources;
pub use existing_templates::{
    Measure, Table, files_within_the_limits_fit, measured_file, template, templates_have_metadata,
    templates_have_the_parts_of_the_file,
};
pub use file_counts::first_beyond;
