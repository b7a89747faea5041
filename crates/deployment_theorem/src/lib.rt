//! What the program does with its words, and what it says of it: the deployment theorem.
//!
//! `specs/Sides.antt` says what is outside a call, `specs/Commands.antt` what each command does and says, and
//! `specs/Theorem.antt` puts them together. A law says that what is planned is what the program in the files means.
//! There is no other code; what builds and deploys is passed on.
#![tactic(auto)]

pub mod laws;

pub use request_deployments::{deploy_bytes, refused};
pub use source_builds::{NotBuilt, build_source};
