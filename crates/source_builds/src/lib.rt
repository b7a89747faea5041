//! The bytes of the template of a Bicep program: its files are read and checked, and the template is written.
//!
//! A caller may rely on `build_source`: of which program the bytes are (`specs/Builds`), and for which reason none are
//! built, with the report of it (`specs/Refusals`). A law says that what is planned of the bytes is of the program.
#![tactic(auto)]

mod building;
pub mod laws;

pub use building::{NotBuilt, build_source};
