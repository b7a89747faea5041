//! Template functions on numbers and truth values, and what kind of value an argument is.
//!
//! Each function takes the list of its arguments and gives its value; none where the arguments are
//! of other kinds or another number, or where the function has no value of them.
//! What each returns is in `specs/Numbers.antt` and `specs/Logic.antt`, the kinds of values in
//! `specs/Kinds.antt`.
#![tactic(auto)]

mod arithmetic;
mod comparison;
mod extremes;
pub mod kinds;
pub mod laws;
mod logic;
mod numeral;
mod sequence;

pub use arithmetic::{add, div, mul, remainder, sub};
pub use comparison::{equals, greater, greater_or_equals, less, less_or_equals};
pub use extremes::{max, min};
pub use logic::{always_false, always_null, always_true, not, to_bool};
pub use numeral::to_int;
pub use sequence::range;
