//! The template of a checked program, and its bytes.
//!
//! A caller may rely on `emit`: of a program that `load` of `bicep_program` read and in which `check` of `bicep_types`
//! found nothing wrong it returns the template in a form (`specs/Programs`), or an `EmitFault`; and on
//! `build_bytes`, which returns the compact JSON of a template, unless it is too long (`specs/Bytes`).
#![tactic(auto)]

mod bytes;
mod programs;

pub use bytes::build_bytes;
pub use program_parts::EmitFault;
pub use programs::emit;
