//! Tests of the tasks and needs of deployments.
//!
//! Each row of a table is a template with facts on the tasks of its deployment and their needs. The facts are written
//! from the rules, by hand. There is nothing here but tests, so there is no edit that must be refused.
#![tactic(auto)]

#[cfg(test)]
mod asking;
#[cfg(test)]
mod deletes;
#[cfg(test)]
mod estates;
#[cfg(test)]
mod needs;
#[cfg(test)]
mod refusals;
#[cfg(test)]
mod services;
