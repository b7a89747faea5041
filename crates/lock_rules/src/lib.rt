//! Locks on scopes, what they forbid, and why deployments fail.
//!
//! A caller may rely on exactly which lock forbids that a resource is put or deleted, or that a group
//! is deleted, on the order of the locks that a store keeps, and on the code and the message of a
//! cause. `specs/Rules.antt` defines what a lock forbids, `specs/LockIds.antt` the id of a lock, and
//! `specs/Causes.antt` codes and messages.
#![tactic(auto)]

mod bind_fault;
mod cause;
mod keeping;
mod level;
mod lock;
mod locks;
mod parts;
mod place;
mod rules;
mod searching;
mod spacing;

pub use cause::{Cause, Tasks};
pub use level::Level;
pub use lock::Lock;
pub use locks::Locks;
pub use place::Place;
pub use rules::{effective, may_delete, may_delete_group, may_put};
