//! Which template a value describes.
//!
//! `specs/Describes` says it by recursion on the template, member by member: the header of a template, each listed
//! resource with its body and its children, and each nested deployment with its template. `specs/Parts` has the
//! parameters, the variables and the outputs, `specs/Resources` what declares a resource. A value with a fault states
//! no template; every other value states the one that it describes.
#![tactic(auto)]

mod laws;

pub use laws::described_once;
