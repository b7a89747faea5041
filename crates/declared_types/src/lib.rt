//! The whole types of the resources of a Bicep file, and their versions.
//!
//! A caller may rely on `types_of`, which returns for each symbol what `bicep_meaning` says in `specs/Files`
//! (`type_of`). `specs/Types` says which list this is.
#![tactic(auto)]

mod resources;

pub use resources::{Typed, types_of};
