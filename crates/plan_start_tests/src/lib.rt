//! Tests of what is known of deployments at their start.
//!
//! Each row of a table is a template with facts on it: what a cell of it is, which tasks there are, at which keys they
//! put. The facts are written from the rules, by hand. There is nothing here but tests, so there is no edit that must
//! be refused.
#![tactic(auto)]

#[cfg(test)]
mod cells;
#[cfg(test)]
mod circles;
#[cfg(test)]
mod instances;
#[cfg(test)]
mod limits;
#[cfg(test)]
mod plain;
#[cfg(test)]
mod rows;
#[cfg(test)]
mod scopes;
#[cfg(test)]
mod trees;
#[cfg(test)]
mod waiting;
#[cfg(test)]
mod work;
