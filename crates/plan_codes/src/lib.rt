//! Tags of tasks as lists of numbers, by which they are looked up: one task needs another exactly where the other has
//! a tag for which the one asks.
//!
//! `specs/Codes` has the numbers of keys and of tags, `specs/NameCodes` those of names, `specs/TaskCodes` all of a
//! task.
//! The laws are in `laws`; there is no other code.
#![tactic(auto)]

pub mod laws;
