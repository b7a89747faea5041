//! The values of the variables, the outputs and the parameters of a Bicep file, as its template has them.
//!
//! A caller may rely on `variable`, `output` and `default_value`: of a table of all declarations of the file they
//! return what `emitted_files` says of each. `content` is the value of any of these, or of an argument of a module.
//! They are for what is within the limits of templates, which `measured_content` and `measured_default` measure before.
#![tactic(auto)]

mod contents;
mod defaults;
mod laws;
mod metadata;
mod outputs;
mod passes;
mod variables;

pub use contents::{content, measured_content};
pub use defaults::{default_value, measured_default};
pub use filled_tables::Table;
pub use measured_expressions::Span;
pub use measured_trees::Measure;
pub use metadata::copied_metadata;
pub use outputs::{kind_of, output};
pub use tree_texts::{Expressions, printed_text, turns};
pub use variables::variable;
