//! The parts of templates, read out of values: parameters, variables, outputs, arguments and what declares a resource.
//!
//! Each function here returns what a value says by the definitions of `template_meaning`, and is total: a value of
//! another form than a template has there was refused before, and says the least that the place can have. A value that
//! may have expressions in it is copied.
#![tactic(auto)]

mod argument;
mod content;
mod declaration;
mod kind;
mod output;
mod parameter;
mod part;
mod values;
mod variable;

pub use argument::arguments_in;
pub use declaration::declaration_of;
pub use output::outputs_in;
pub use parameter::parameters_in;
pub use values::{copy_text, inside, is_word, items_in, members_in, optional, text_is};
pub use variable::variables_in;
