//! Lemmas on resources that are written: what declares them and their bodies have no fault where the value that they
//! were read from has none, and nest no deeper.
//!
//! `proofs/ResourceLemmas` has what declares a resource, `proofs/BodyLemmas` its body and the resource as a whole.
#![tactic(auto)]
