//! Tests of what Bicep expressions become in templates, over public items.
//!
//! A table is one text with a row in each line: an expression, and after an arrow the template expression that it
//! becomes. `sample` has what declarations become there. `declarations` has examples of what they become in a template.
//! `random` evaluates what random expressions become.
#![tactic(auto)]

pub mod declarations;
#[cfg(test)]
mod expressions;
#[cfg(test)]
mod random;
#[cfg(test)]
mod rows;
pub mod sample;
#[cfg(test)]
mod shown;
