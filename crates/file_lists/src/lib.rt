//! The parameters, the variables and the outputs of the template of a Bicep file.
//!
//! A caller may rely on `parameters`, `variables` and `outputs`: of a table of all declarations of the file each
//! returns the parts that the template has, in byte order of their names, as `specs/Lists` says, or no memory. They are
//! for what is within the limits of templates, which a caller measures before.
#![tactic(auto)]

mod growing;
mod output_list;
mod parameter_list;
mod variable_list;

pub use emitted_values::{measured_content, measured_default};
pub use output_list::outputs;
pub use parameter_list::parameters;
pub use variable_list::variables;
