//! Resources of a template that resources of a Bicep file become.
//!
//! A caller may rely on `resource`: it returns the resource of a template, as `specs/Resources` says, or finds no
//! memory, and on `measured_resource`: how much of the limits of templates it takes (`specs/Limits`). `laws` says that
//! a resource within the limits is that of its declaration (`emitted_files`).
#![tactic(auto)]

mod bodies;
mod heads;
pub mod laws;
mod loops;
mod measured;
mod names;
mod needs;
mod resources;
mod turns;

pub use emitted_values::{Table, content, copied_metadata, measured_content};
pub use heads::head;
pub use measured::{measured_head, measured_resource};
pub use measured_expressions::Span;
pub use measured_trees::Measure;
pub use needs::Needs;
pub use resources::resource;
pub use turns::{span_around, turns_around};
