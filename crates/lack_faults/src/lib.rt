//! Why a deployment has no plan, where something lacks a value at its start.
//!
//! `lack_fault` says it of what is at a path, and `element_fault` of an element of `dependsOn`. `specs/Lacks` says what
//! lacks a value.
#![tactic(auto)]

mod lacking;

pub use lacking::{element_fault, lack_fault};
pub use plan_elements::{Unread, elements_of_tasks};
