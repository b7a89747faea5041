//! The template that is made for a file is that of its text.
//!
//! A caller may rely on `specs/Texts` and on the law. There is no other code.
#![tactic(auto)]

pub mod laws;

pub use program_templates::laws::{
    checked_files_have_kinds, checked_names_differ, nested_templates_are_given,
    parameters_are_there, whole_templates_are_emitted,
};
pub use program_templates::{
    Measure, Table, checked_files_are_placed, files_within_the_limits_fit, first_beyond,
    measured_file, template, templates_have_few_parts, templates_have_the_parts_of_the_file,
    templates_keep_the_rules,
};
pub use source_files::laws::outputs_are_of_the_program;
