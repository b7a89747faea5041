//! Tests of `depend_graph`, and the plain graph that they compare with.
//!
//! The plain graph looks at all edges for each answer, and its contract is the definition itself (`specs/Edges`). Tests
//! run it beside the crate that keeps counts and lists.
#![tactic(auto)]

#[cfg(test)]
mod graphs;
pub mod plain_graph;
