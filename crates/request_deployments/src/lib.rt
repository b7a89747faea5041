//! A request of words is carried out on the bytes of a template: its parameter file is read, its names are looked at,
//! and what the bytes state is deployed over an empty store.
//!
//! A caller may rely on `specs/Deployed.antt`: why a request is refused, in this order, and that every other is run.
#![tactic(auto)]

mod deploying;

pub use deploying::deploy_bytes;
pub use template_deployments::refused;
