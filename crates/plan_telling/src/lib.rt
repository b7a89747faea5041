//! What is told of an expression of a deployment, by what a table has of its cells.
//!
//! A `Register` is a table with the symbolic names of each of its scopes. `telling::told_at` evaluates a source (a
//! tree, a loop or an output) at a site, and returns its value, or which cell or state it waits for. Contracts see this
//! as what is told of the reading `reading_at` of `plan_cells::specs::Sites`.
#![tactic(auto)]

pub mod lacks;
pub mod register;
pub mod site;
pub mod source;
pub mod symbols;
pub mod telling;

pub use plan_sights::lacking;
