//! The deletes of a deployment: what is held in its group, and is not put.
//!
//! `list_deletes` lists the keys of what is deleted, in the order in which it is held. A key is looked up among those
//! of the puts, so no key is compared with each other one.
#![tactic(auto)]

mod deletes;
mod puts;

pub use deletes::list_deletes;
