//! The types of Bicep expressions.
//!
//! A caller may rely on `specs/Typing`: the type of an expression, or the place of the first part that does not fit,
//! by recursion on the resolved tree. `specs/Operators` says what operators take and give, `specs/Names` which types
//! names, fields and outputs have. What functions take and give is in `bicep_signatures`. A place is an offset in the
//! source, in bytes. No call takes memory.
#![tactic(auto)]

mod calls;
mod expressions;
mod names;
mod operators;
mod reaches;
mod typed;

pub use expressions::{reach_fits, type_of, value_type};
pub use typed::{Fitting, Typed, wanted};
