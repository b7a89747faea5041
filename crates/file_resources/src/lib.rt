//! The resources of the template that a Bicep file becomes.
//!
//! A caller may rely on `resources`: it returns the resources of the template in a form, one for each resource that is
//! put and each module, and in the second form one for each existing resource, as `specs/Built` says, or finds no
//! memory. `laws` says that resources within the limits of templates are those of the file (`emitted_files`).
#![tactic(auto)]

pub mod laws;
mod listing;
mod needs;
mod parts;

pub use emitted_dependencies::measured_dependencies;
pub use emitted_modules::{Measure, Table, measured_arguments, measured_head, measured_resource};
pub use listing::resources;
