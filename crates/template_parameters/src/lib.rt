//! The parameters of a template: what rule each has, which values are given, and what each is bound to.
//!
//! `specs/Rule` says what a value breaks of a parameter's rule, `specs/Literal` which default has a value of its own,
//! `specs/Given` what is given for parameters, and `specs/Binding` what each is bound to and why values are refused.
#![tactic(auto)]

mod binding;
mod given;
mod kinds;
mod literals;
mod parts;
mod rule;

pub use binding::bind;
pub use given::read_given;
pub use literals::literal;
pub use rule::{Breach, first_breach};
