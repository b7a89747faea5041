//! The numbers of the resources of a template, in the order of the template.
//!
//! A caller may rely on `numbers`: of a table of the declarations of a Bicep file and of a form it returns the numbers
//! of the symbols of the resources that the template has in that form, in its order (`source_worlds`), or no memory.
#![tactic(auto)]

mod listed;
mod order;

pub use order::numbers;
