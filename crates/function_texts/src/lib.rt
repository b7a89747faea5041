//! Template functions that look for and cut parts of texts.
//!
//! Each function takes the list of its arguments and gives its value; none where the arguments are
//! of other kinds or another number, or where the function has no value of them. Texts are lists of
//! characters (Unicode scalar values); the case that is folded is that of ASCII letters alone.
//! What each returns is in `specs/Letters.antt`, `specs/Places.antt` and `specs/Cuts.antt`.
#![tactic(auto)]

mod cuts;
pub mod laws;
mod letters;
mod marks;
pub mod places;
mod search;
mod splits;

pub use cuts::{replace, substring};
pub use function_numbers::kinds::text_of;
pub use letters::{to_lower, to_upper, trim};
pub use places::{contains, ends_with, index_of, last_index_of, starts_with};
pub use splits::split;
