//! Where the parts of a template are: the paths of cells as JSON pointers.
//!
//! `specs/Resources` has the paths of resources, `specs/Texts` those of scopes and instances and their positions, which
//! have in addition the index of each looped instance, and `specs/CellPaths` the paths of cells.
#![tactic(auto)]

mod cells;
mod resources;
mod scopes;

pub use cells::{element_path, line_path};
pub use resources::{below, resource_path};
pub use scopes::instance_path;
