//! JSON values whose numbers are whole, as trees of owned parts.
//!
//! A caller may rely on what the contracts say of the tree of a value (`json` of `specs/View`, over
//! the trees of `specs/Json`): the members of an object are in byte order and have different names,
//! and nothing nests above 120. Reading and writing rest on `serde_json` (`specs/Reading`).
//! Beside values it has texts, bytes, JSON pointers and lists of these.
#![tactic(auto)]

pub mod bytes;
mod convert;
mod copy;
mod gather;
pub mod list_of;
pub mod look;
pub mod memory;
pub mod path;
pub mod read;
pub mod same;
pub mod set;
pub mod text;
pub mod texts;
pub mod value;
mod write;

pub use bytes::Bytes;
pub use gather::sorted;
pub use list_of::ListOf;
pub use look::folded_eq;
pub use memory::OutOfMemory;
pub use path::{Path, Paths};
pub use read::JsonFault;
pub use set::deepest_member;
pub use text::Text;
pub use texts::{Texts, copy_texts};
pub use value::{Field, Fields, Items, Value, deepest_item};
