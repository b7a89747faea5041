//! A template is deployed: read out of a value, bound to the values that are given, planned, and run over the seats of
//! a crew.
//!
//! A caller may rely on `specs/Deploying.antt`: which deployments are turned down, and with which report, and that
//! every other is run, over a plan of the template that the value states.
#![tactic(auto)]

mod asked;
mod deploying;
mod refusing;
mod running;

pub use asked::Asked;
pub use deploying::deploy_value;
pub use refusing::refused;
