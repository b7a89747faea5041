//! The template of a Bicep file keeps the rules of templates.
//!
//! A caller may rely on `laws`: a template that `template` of `emitted_templates` makes is described by the value that
//! is written of it (`Keeps` of `template_written`), where the names of the file are placed as `placed_files` says.
//! There is no other code.
#![tactic(auto)]

pub mod laws;

pub use counted_templates::laws::templates_have_few_parts;
pub use counted_templates::{
    Measure, Table, files_within_the_limits_fit, first_beyond, measured_file, template,
    templates_have_existing_resources, templates_have_metadata,
    templates_have_the_parts_of_the_file,
};
pub use placed_files::laws::checked_files_are_placed;
