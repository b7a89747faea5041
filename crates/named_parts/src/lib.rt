//! Parts of a template in the byte order of their names.
//!
//! A caller may rely on `with_part`, which returns parts with one more in its place by the bytes of its name, or no
//! memory. `specs/Order` says what its place is, and `laws` that parts stay in order, and that each is found as before.
#![tactic(auto)]

pub mod laws;
mod named;
mod order;

pub use named::Named;
pub use order::with_part;
