//! A board is run, and it is reported how the deployment has ended.
//!
//! A caller may rely on the clauses of a deployment that was run (`specs/Deployments.antt`): which desired state it has
//! led to, that its history is legal, why it has failed, and which calls each provider has got. What is reported is in
//! `specs/Reported.antt`.
#![tactic(auto)]

pub mod laws;
mod outcome;
mod running;

pub use deploy_core::letting_go;
pub use outcome::Outcome;
pub use running::run_board;
