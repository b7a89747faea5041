//! Tests of the values of Bicep expressions, over public items.
//!
//! A table is one text with a row in each line: an expression, and after an arrow its value as compact JSON, `none`, or
//! the number of the variable that it waits for. `sample` has what the expressions can look at.
#![tactic(auto)]

#[cfg(test)]
mod accesses;
#[cfg(test)]
mod fields;
#[cfg(test)]
mod functions;
#[cfg(test)]
mod loops;
#[cfg(test)]
mod operators;
#[cfg(test)]
mod rows;
pub mod sample;
