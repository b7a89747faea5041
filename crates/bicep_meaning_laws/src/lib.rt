//! Laws of what Bicep programs mean.
//!
//! Where names make no circle, each declaration means what its expressions mean. What an expression reads is of the
//! symbols that it mentions, and of those to which their names lead. The laws are in `laws`; there is no other code.
#![tactic(auto)]

pub mod laws;
