//! Which texts of `dependsOn` are titles: the name of a loop in the first form, a symbolic name in the second.
//!
//! `titles_of_scopes` keeps the titles of each scope, `is_title` looks a text up in those of one. `specs/Titles` has
//! what is kept; `Dependencies` of `plan_faults` says what a title is.
#![tactic(auto)]

mod indexed;
mod looking;
mod titles;

pub use looking::is_title;
pub use titles::{ScopeTitles, titles_of_scopes};
