//! The value that lists the nested deployments of a scope, made of what a table has of their counts, names and
//! conditions.
//!
//! `listing::listing_told` returns the value, or which cell it waits for. Contracts see this as what is told of the
//! reading `listing_value` of `deploy_cells::specs::Listing`.
#![tactic(auto)]

pub mod instance;
pub mod listing;
