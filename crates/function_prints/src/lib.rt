//! Template functions that print values, and `json`, which reads them.
//!
//! The printed form of a value is a text itself, a number's decimal digits, `True` or `False`,
//! nothing for null, and the compact JSON text of an array or an object (`specs/Printed.antt`).
//! Format texts are in `specs/Format.antt`, and what a JSON text states is in `specs/Stated.antt`.
#![tactic(auto)]

mod filling;
mod joining;
pub mod laws;
mod padding;
pub mod printed;
mod stated;
mod whole;

pub use filling::format;
pub use function_lists::{
    create_array, create_object, empty, first, flatten, intersection, last, object_items,
    object_keys, size, skip, take, to_array, try_get, union,
};
pub use function_texts::{
    contains, ends_with, index_of, last_index_of, replace, split, starts_with, substring, to_lower,
    to_upper, trim,
};
pub use joining::{concat, join};
pub use padding::pad_left;
pub use printed::to_text;
pub use stated::read_json;
pub use whole::has_whole_numbers;
