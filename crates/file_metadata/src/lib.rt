//! The metadata that the decorators of a Bicep file give to the parts of its template.
//!
//! A caller may rely on `metadata_of_file`, which returns the metadata of each symbol and of each output of a file, by
//! their numbers (`specs/Files`).
#![tactic(auto)]

mod files;
pub mod laws;
mod listing;

pub use files::{FileMetadata, metadata_of_file};
