//! Tests of what Bicep values become in templates outside of expressions, over public items.
//!
//! A table is one text with a row in each line: a value, and after an arrow the JSON that it becomes or the limit that
//! it is beyond. `sample` has what declarations become.
#![tactic(auto)]

#[cfg(test)]
mod rows;
pub mod sample;
#[cfg(test)]
mod values;
