//! Why the members of a resource of a template are refused, but for what its children and the template of a nested
//! deployment have in them.
//!
//! `specs/Settings` says what the place of a resource, its type and its children make of it, `specs/Copies` why its
//! loop is refused, and `specs/Members` why each of its members is.
#![tactic(auto)]

mod copy;
mod member;
mod setting;
mod word;

pub use member::ResourceRule;
pub use setting::{Rank, Setting, is_symbolic, required_members, setting_of};
