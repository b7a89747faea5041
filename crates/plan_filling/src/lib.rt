//! What is known of a deployment at its start: a sheet of cells, which is filled until no more can be known.
//!
//! A `Sheet` lists cells, each at a place, and knows what each is by what is known of others. `fill_all` fills it: a
//! cell is told, and told again after a cell that it waits for was finished. Where cells wait for one another in a
//! circle, it returns that circle. A contract sees a sheet by its rows (`specs/Rows`). The laws are in `laws`.
#![tactic(auto)]

pub mod laws;
pub mod sheet;
pub mod visit;
