//! Why the parameters, variables and outputs of a template are refused, and what a nested deployment gives for the
//! parameters of its template.
//!
//! `specs/Objects` says why an object is refused whose members are looked at by their names. `specs/Parameters`,
//! `specs/Variables`, `specs/Outputs` and `specs/Arguments` say which members these have, and `specs/Loops` why a loop
//! is refused that gives a variable or the value of an argument.
#![tactic(auto)]

mod argument;
mod kind;
mod loops;
mod object;
mod output;
mod parameter;
mod plain;
mod variable;

pub use argument::{arguments_fault, has_item};
pub use kind::type_named;
pub use object::{MemberRule, first_faulty, members_fault, object_fault};
pub use output::outputs_fault;
pub use parameter::parameters_fault;
pub use variable::{names_of, variables_fault};
