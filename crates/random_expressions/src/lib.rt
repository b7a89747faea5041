//! Random expressions for tests: of Bicep with their values, and the values of template expressions.
//!
//! `random` makes an expression together with its value (`values`). `plain` evaluates a template expression. A value is
//! compact JSON, and the word `none` where there is no value.
#![tactic(auto)]

pub mod plain;
pub mod random;
pub mod values;
