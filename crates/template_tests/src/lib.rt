//! Tests of templates: what parameters are bound to, and which values give parameters.
//!
//! Most are tables of texts: a line has what is asked, and after an arrow the wanted answer. They cover the crates of
//! templates, which have no tests of their own, so that each is proved once. There is nothing here but tests, so there
//! is no edit that must be refused.
#![tactic(auto)]

#[cfg(test)]
mod binding;
#[cfg(test)]
mod fixtures;
#[cfg(test)]
mod giving;
