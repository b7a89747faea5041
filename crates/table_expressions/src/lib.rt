//! The template expressions of a Bicep file, emitted of the table of all its declarations, with their meaning.
//!
//! A caller may rely on `expression`: what it returns has the value of the expression of the program, or none where
//! that has none, and looks at each state and each output of a module where the program does. `specs/Meaning` says
//! this.
#![tactic(auto)]

mod expressions;

pub use expressions::expression;
