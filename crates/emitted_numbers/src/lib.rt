//! Numbers in all that is emitted of a Bicep file are numbers of template expressions, of 64 bits.
//!
//! A caller may rely on `laws`. `specs/Wholes` says which files have such numbers, and `specs/Trees` which JSON of a
//! template. There is no other code.
#![tactic(auto)]

pub mod laws;
