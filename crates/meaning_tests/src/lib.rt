//! Examples of what expressions and declarations of Bicep mean, computed from the definitions.
#![tactic(auto)]

pub mod expressions;
pub mod instances;
pub mod operators;
