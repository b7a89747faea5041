//! Tests of template expressions: their spelling, what they look at, and their values.
//!
//! Most are tables of texts: a line has an expression, and after an arrow the wanted answer. They
//! cover `arm_expr`, `arm_env`, `arm_eval`, `missing_values` and the crates between these, which have
//! no tests of their own, so that each is proved once. There is nothing here but tests, so there is
//! no edit that must be refused.
#![tactic(auto)]

#[cfg(test)]
mod answers;
#[cfg(test)]
mod brackets;
#[cfg(test)]
mod environment;
#[cfg(test)]
mod expressions;
#[cfg(test)]
mod forms;
#[cfg(test)]
mod limits;
#[cfg(test)]
mod missing;
#[cfg(test)]
mod names;
#[cfg(test)]
mod outputs;
#[cfg(test)]
mod references;
#[cfg(test)]
mod spelling;
#[cfg(test)]
mod symbols;
#[cfg(test)]
mod table;
#[cfg(test)]
mod told;
#[cfg(test)]
mod trees;
