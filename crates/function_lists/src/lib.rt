//! Template functions on arrays and objects, and on the ends of texts.
//!
//! Each function takes the list of its arguments and gives its value; none where the arguments are
//! of other kinds or another number, or where the value would nest above 120. What each returns is in
//! `specs/Sizes.antt`, `specs/Ends.antt`, `specs/Items.antt` and `specs/Members.antt`.
//! Beside them it has what the functions on texts need of arrays, and texts as characters.
#![tactic(auto)]

pub mod characters;
mod ends;
mod index;
pub mod items;
pub mod laws;
pub mod members;
mod merge;
mod parts;
pub mod sizes;
mod unions;
pub mod values;

pub use ends::{first, last, skip, take};
pub use items::{
    concat_arrays, create_array, flatten, intersection_of_arrays, to_array, union_of_arrays,
};
pub use members::{create_object, object_items, object_keys};
pub use parts::try_get;
pub use sizes::{empty, size};
pub use unions::{intersection, union};
