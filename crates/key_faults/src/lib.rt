//! Why a deployment has no plan, where two of its instances have one key.
//!
//! `check_keys` returns the fault, or nothing where keys differ as a plan needs it. `specs/Positions` has the positions
//! that a fault names.
#![tactic(auto)]

mod keys;

pub use keys::check_keys;
