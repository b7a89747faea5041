//! What an expression sees of a plan at a point of its deployment, and what is told of it and of the bodies of tasks.
//!
//! The evaluator asks a `Sight` for each cell that an expression looks at. `telling::told_at` returns what is told of
//! an expression, and `body::told_of_body` what is told of the body of what a task puts, or the line or state that it
//! waits for. Contracts see this as what is told of the readings of `plan_cells` by the rows of the point.
#![tactic(auto)]

pub mod body;
mod lacks;
pub mod scopes;
pub mod sight;
pub mod telling;

pub use plan_telling::{register, source};
