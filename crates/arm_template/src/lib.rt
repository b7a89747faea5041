//! ARM templates in both forms: read out of JSON values, written as JSON values, and bound to given parameters.
//!
//! `read_template` returns the template that a value states (`specs/States`), or the fault of the value with its path.
//! `write_template` returns a value that states a template, and what it writes is read as the same template.
//! `read_given` and `bind` say what the parameters of a template are bound to, `first_breach` what a value breaks of a
//! parameter's rule.
#![tactic(auto)]

mod laws;
mod read;
mod write;

pub use laws::{
    faults_are_of_values, stated_once, written_values_are_read_back, written_values_state,
};
pub use read::read_template;
pub use template_parameters::{Breach, bind, first_breach, literal, read_given};
pub use template_parts::{
    Argument, Batches, BindFault, Bound, BoundParameter, BoundValue, Bounds, Content, Declaration,
    Form, Given, GivenValue, Mode, Output, Parameter, Path, ResourceCopy, Scope, TemplateFault,
    ValueType, Variable, Which,
};
pub use template_tree::{Body, Deployment, Resource, Resources, Template};
pub use write::write_template;
