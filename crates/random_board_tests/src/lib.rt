//! Boards of random plans beside a plain program, in random orders of jobs and answers.
#![tactic(auto)]

#[cfg(test)]
mod plain;
#[cfg(test)]
mod random;
