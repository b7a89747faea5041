//! What is told of a line of a table, and of the parameters and variables that an expression sees.
//!
//! Each function looks a cell up, and returns what it has or a `Lack`: that it is not there, that the reading has no
//! value, or which cell or state it waits for. Contracts see this as what is told of the readings of
//! `plan_cells::specs::Sites` by what the table has (`specs/Ready`, `specs/Seen`). `rules::meets_rule` returns whether
//! a value meets the rule of the cell that it is for.
#![tactic(auto)]

pub mod lack;
pub mod laws;
pub mod look;
pub mod rules;
