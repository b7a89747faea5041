//! What is known of the cells of a plan at a point of its deployment, besides what is known at the start.
//!
//! `Later` keeps what became known: parameters and variables, outputs of scopes that were left, and states. Each look
//! of `look` returns what a cell has by the start and by this, or a `Lack`. Contracts see both as one list of rows
//! (`specs/Rows`).
#![tactic(auto)]

pub mod keeping;
pub mod later;
pub mod look;
pub mod outputs;
pub mod states;
