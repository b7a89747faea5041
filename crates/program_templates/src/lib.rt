//! The template of a program, with the templates of its modules in it.
//!
//! A caller may rely on `specs/Whole` and on the laws. There is no other code.
#![tactic(auto)]

pub mod laws;

pub use kept_templates::laws::templates_keep_the_rules;
pub use kept_templates::{
    Measure, Table, checked_files_are_placed, files_within_the_limits_fit, first_beyond,
    measured_file, template, templates_have_existing_resources, templates_have_few_parts,
    templates_have_metadata, templates_have_the_parts_of_the_file,
};
