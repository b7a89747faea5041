//! Tests of JSON values, and of resource ids and what is held.
//!
//! Most are tables of texts: a line has what is asked, and after an arrow the wanted answer
//! (`table`). They cover `arm_value` and `arm_ids`, which have no tests of their own, so that each
//! is proved once. There is nothing here but tests, so there is no edit that must be refused.
#![tactic(auto)]

#[cfg(test)]
mod answers;
#[cfg(test)]
mod building;
#[cfg(test)]
mod holding;
#[cfg(test)]
mod ids;
#[cfg(test)]
mod looking;
#[cfg(test)]
mod members;
#[cfg(test)]
mod reading;
#[cfg(test)]
mod scope_ids;
#[cfg(test)]
mod scopes;
#[cfg(test)]
mod table;
#[cfg(test)]
mod written;
