//! The template of a file of a checked program.
//!
//! A caller may rely on `file_loops` and `file_parts`: of the text of a file, and of what its names are, they return
//! what its template is made of and how much of the limits of templates it takes (`specs/Parts`), or an `EmitFault`:
//! a limit that the template would break (`specs/Faults`), or no memory; and on `file_template`, which makes the
//! template (`specs/Made`). `laws` says of which parts a template can be made.
#![tactic(auto)]

mod fault;
mod file;
pub mod laws;

pub use fault::EmitFault;
pub use file::{FileParts, Parts, file_loops, file_parts, file_template};
pub use file_tables::FileOrder;
pub use source_templates::{
    Measure, checked_files_have_kinds, outputs_are_of_the_program, whole_templates_are_emitted,
};
