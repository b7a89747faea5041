//! The values of Bicep expressions whose names are found, by what is known of the cells that they read.
//!
//! A caller may rely on `evaluate` and `evaluate_value`: they return what the meaning of the expression
//! (`bicep_meaning`) gives, a value, or that there is none, or the cell that is read first of what is not known; or
//! `OutOfMemory`. The trait `Surroundings` looks up what surrounds an expression.
#![tactic(auto)]

mod expressions;

pub use bicep_outcomes::Stop;
pub use bicep_outcomes::loops::Turn;
pub use bicep_surroundings::Surroundings;
pub use expressions::{evaluate, evaluate_value};
