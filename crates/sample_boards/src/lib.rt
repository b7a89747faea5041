//! Boards for tests: over plans that are given as texts, followed line by line.
//!
//! `plans::plan` makes a plan of the lines of its tasks, `following::fresh` and `opened` make a board of it, and
//! `follow_all` gives jobs and answers, and compares what the board does.
#![tactic(auto)]

pub mod ending;
pub mod following;
pub mod parts;
pub mod plans;
pub mod telling;
