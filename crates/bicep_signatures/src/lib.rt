//! What the functions of Bicep take and give, by types.
//!
//! A caller may rely on `specs/Table`, which has for each function that a file may call the kinds of its arguments and
//! the type of its values, on `specs/Kinds`, which says what fits a kind, and on `specs/Signatures`, which says what
//! is left of the ways to call a function after an argument.
#![tactic(auto)]

pub mod kinds;
pub mod signature;
mod table;
pub mod value_type;

pub use kinds::Kinds;
pub use signature::{Signature, Signatures};
pub use value_type::ValueType;
