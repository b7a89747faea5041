//! Plans of random templates beside those of a plain program.
//!
//! `trees` and `shapes` draw templates. `listing` and `plain` have the plain program, which looks each cell up among all
//! lines of the filled table. There is nothing here but a test, so there is no edit that must be refused.
#![tactic(auto)]

#[cfg(test)]
mod comparing;
#[cfg(test)]
mod listing;
#[cfg(test)]
mod plain;
#[cfg(test)]
mod shapes;
#[cfg(test)]
mod trees;
