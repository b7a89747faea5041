//! Lemmas on the parts of a template that are written: none has a fault where the part that it was read from has none,
//! and none nests deeper.
//!
//! `proofs/FaultLemmas` says what follows where nothing is refused, `proofs/ObjectLemmas` which objects of fixed names
//! a rule accepts. `proofs/PartLemmas` has parameters, outputs and loops, `proofs/GivenLemmas` variables and arguments.
#![tactic(auto)]
