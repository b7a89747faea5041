//! The command line: what the words of a command say is done, and printed.
//!
//! A caller may rely on the contract of `run`, the deployment theorem. Its definitions are in the crate
//! `deployment_theorem`; `specs/Clauses.antt` says what the functions of this crate require and ensure.
#![tactic(auto)]

mod commands;
mod running;

pub use running::{Ran, run};
