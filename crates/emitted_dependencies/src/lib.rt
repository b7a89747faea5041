//! What resources of a template depend on by name.
//!
//! A caller may rely on `depends_on`: it returns the elements of `dependsOn`, as `emitted_files` says in `specs/Files`,
//! or finds no memory, and on `measured_dependencies`: how much of the limits of templates they take. `laws` says that
//! elements within the limits are those of the resources and modules (`emitted_files`).
#![tactic(auto)]

mod chosen;
mod elements;
pub mod laws;
mod lists;
mod measured;

pub use chosen::declared_at;
pub use lists::depends_on;
pub use measured::measured_dependencies;
