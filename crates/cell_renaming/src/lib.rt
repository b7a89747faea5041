//! Desired states whose resources have other numbers.
//!
//! A compiler gives the resources of a program other numbers in its template. `specs/Renaming` says what becomes of
//! cells and worlds then, and `specs/Renamed` when what is desired of renamed worlds is what is desired of worlds. The
//! laws are in `laws`; there is no other code.
#![tactic(auto)]

pub mod laws;
