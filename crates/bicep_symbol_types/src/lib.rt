//! The types of the symbols of a Bicep file, and of its outputs.
//!
//! A caller may rely on `specs/SymbolTypes`: parameters have the types that they are declared with, and variables those
//! of their values, by the types of the symbols that these mention; on `specs/Outputs`: the types of outputs in source
//! order; and on `laws`. The type of an expression is in `bicep_typing`.
#![tactic(auto)]

pub mod laws;
mod outputs;
mod symbols;

pub use outputs::output_types;
pub use symbols::symbol_types;
