//! Where a JSON tree with expressions and loops has no value: the path to the deepest part of it
//! that has none. The definition is in `specs/Missing.antt`.
#![tactic(auto)]

mod missing;
pub mod path;

pub use missing::missing_path;
pub use path::Step;
