//! Bicep programs whose names are found.
//!
//! A caller may rely on `specs/Programs`: which resolved file each file of a program stands for, and on `specs/Faults`:
//! the first name that is given twice or means nothing. `specs/Unknown` says independently where a name of a file means
//! nothing, and `unknown_names` that a file stands for nothing exactly there. `resolve_names` recurses as deep as
//! resources and expressions nest.
#![tactic(auto)]

mod dropping;
mod fault;
pub mod laws;
mod named;
mod outputs;
pub mod resolved;
mod resolving;

pub use dropping::drop_program;
pub use fault::ResolveFault;
pub use resolved::{ResolvedFile, ResolvedProgram};
pub use resolving::resolve_names;
