//! Values without expressions, as the allowed values of a parameter are.
//!
//! A template writes a plain text that is in brackets with one more `[` in front. `meant_items` returns the values that
//! those of a template are, and `items_written_plainly` the values as a template writes them. `specs/Plain` says which.
#![tactic(auto)]

mod laws;
mod texts;
mod values;

pub use laws::written_values_mean_themselves;
pub use values::{items_written_plainly, meant_items};
