//! The deployment of a Bicep program: what is planned is what its files mean.
//!
//! `specs/Sources.antt` says when a plan is of the program of the files in a folder, through the bytes of its template.
//! The laws are in `laws`; there is no other code.
#![tactic(auto)]

pub mod laws;
