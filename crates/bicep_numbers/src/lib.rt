//! What holds of the numbers of symbols.
//!
//! A caller may rely on `laws`: the declarations of a file are at the numbers of their symbols, and each number in its
//! declarations and outputs is that of a symbol. `specs/Sorts` says what sort of declaration a symbol has.
#![tactic(auto)]

pub mod laws;

pub use bicep_circles::symbol_order;
