//! The template expressions that Bicep expressions become.
//!
//! A caller may rely on `emitted` and `emitted_value`: they return the expression that `bicep_emission` says in
//! `specs/Emitted`, or no memory. The trait `Declarations` has what the declarations of a file become.
#![tactic(auto)]

mod declarations;
mod expressions;
mod fields;
mod turns;

pub use declarations::Declarations;
pub use emitted_parts::calls::call_one;
pub use emitted_parts::literals::no_value;
pub use emitted_parts::{lacks, letting_go, with};
pub use expressions::{emitted, emitted_value};
pub use turns::Turn;
