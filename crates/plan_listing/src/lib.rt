//! The value that lists the nested deployments of a scope: which instance has a name, and which resource it is of.
//!
//! `wanted::wanted_name` returns the name that is sought for a key, and `listing::seek_listed` what is sought in the
//! value. `words::TypeTexts` keeps the texts of the types of outputs.
#![tactic(auto)]

pub mod listing;
pub mod numbers;
pub mod wanted;
pub mod words;
