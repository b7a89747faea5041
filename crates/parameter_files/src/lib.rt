//! Parameter files: a JSON file whose member `parameters` gives values for the parameters of a template.
//!
//! A caller may rely on exactly which values a file gives, and on which refusal each other file has. `specs/Parameters.antt`
//! says what bytes give, and `specs/Files.antt` what a file of a tree gives.
#![tactic(auto)]

mod fault;
mod parameters;
mod reading;

pub use fault::ParameterFault;
pub use parameters::parameters_in;
pub use reading::read_parameters;
