//! The template of a Bicep file.
//!
//! A caller may rely on `template`: of a table of all declarations of the file, of the rules of its parameters and of
//! the templates of its modules it returns the template of the file in a form, as `specs/Templates` says, or no memory.
//! `laws` says that this template is that of the file (`specs/Parts`), where its expressions are within the limits.
#![tactic(auto)]

pub mod laws;
mod lists;
mod whole;

pub use file_lists::{measured_content, measured_default};
pub use file_resources::{
    Measure, Table, measured_arguments, measured_dependencies, measured_head, measured_resource,
};
pub use whole::template;
