//! Tests of boards, over plans that are given as tables.
#![tactic(auto)]

#[cfg(test)]
mod replays;
#[cfg(test)]
mod reports;
#[cfg(test)]
mod scripts;
