//! Programs for tests: the files of a program as one text, and the template that it becomes.
#![tactic(auto)]

pub mod programs;
