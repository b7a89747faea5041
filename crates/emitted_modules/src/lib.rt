//! Nested deployments of a template that modules of a Bicep file become.
//!
//! A caller may rely on `module`: it returns the nested deployment, as `specs/Modules` says, or finds no memory, and on
//! `measured_arguments`: how much of the limits of templates its arguments take. `laws` says that a module within the
//! limits is that of its declaration (`emitted_files`).
#![tactic(auto)]

mod arguments;
mod fields;
pub mod laws;
mod measured;
mod modules;

pub use emitted_resources::{
    Measure, Needs, Table, copied_metadata, measured_head, measured_resource, resource,
};
pub use measured::measured_arguments;
pub use modules::module;
