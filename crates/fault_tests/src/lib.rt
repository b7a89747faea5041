//! Tests of why JSON values are refused as templates.
//!
//! The tests are tables of texts: a row has a template, and after an arrow the wanted fault. `§` stands for the schema
//! and the version of the content, `¶` for these and no resources, `@` for the type, the version and the name of a
//! resource, `%` for those of a nested deployment. There is nothing here but tests, so there is no edit that must be
//! refused.
#![tactic(auto)]

#[cfg(test)]
mod headers;
#[cfg(test)]
mod limits;
#[cfg(test)]
mod nested;
#[cfg(test)]
mod resources;
#[cfg(test)]
mod rows;
#[cfg(test)]
mod values;
