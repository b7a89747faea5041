//! Tasks by tags: which task needs which, where this needs no reading, without comparing each task with each.
//!
//! `specs/Tags` has the tags of a task and those for which it asks. The law is in `laws`; there is no other code.
#![tactic(auto)]

pub mod laws;
