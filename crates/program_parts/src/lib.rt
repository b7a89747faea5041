//! What the templates of all files of a program are made of, and what the template of the program takes of the limits.
//!
//! A caller may rely on `file_orders` and `program_parts`, which return what the template of each file is made of
//! (`specs/Parts`), and on `whole_limits`: it returns a fault exactly where what is measured of the template of the
//! program, with those of its modules in it, is beyond a limit (`specs/Measures`). The nesting of expressions is looked
//! at last, after all other limits of all files.
#![tactic(auto)]

mod measures;
mod parts;

pub use file_templates::laws::parts_within_the_limits_can_be_filled;
pub use file_templates::{
    EmitFault, FileOrder, FileParts, checked_files_have_kinds, file_template,
    outputs_are_of_the_program, whole_templates_are_emitted,
};
pub use measures::{module_number, whole_limits};
pub use parts::{file_orders, program_parts};
