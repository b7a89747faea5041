//! How much of the limits of templates the template of a Bicep file takes, before it is built.
//!
//! A caller may rely on `measured_file`: of a table of all declarations of the file, of the rules of its parameters and
//! of what the templates of its modules take it returns what the template of the file takes (`specs/Extremes`), or no
//! memory. `laws` says that the template of a file that is beyond no limit can be built and read back
//! (`specs/Limited`).
#![tactic(auto)]

pub mod laws;
mod measured;

pub use emitted_templates::laws::{templates_have_metadata, templates_have_the_parts_of_the_file};
pub use emitted_templates::{Measure, Table, template};
pub use measured::measured_file;
