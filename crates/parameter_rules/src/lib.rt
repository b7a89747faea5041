//! The parameters that a template has for those of a Bicep file, by their types and decorators.
//!
//! A caller may rely on `parameters`, which returns the parameters of a file without their defaults (`specs/Files`), on
//! `parameter`, which returns one, and on `metadata`, which returns what `@metadata` and `@description` say
//! (`specs/Metadata`).
#![tactic(auto)]

mod descriptions;
mod files;
mod kinds;
pub mod laws;
mod literals;
mod numbers;
mod rules;

pub use descriptions::metadata;
pub use files::parameters;
pub use rules::parameter;
