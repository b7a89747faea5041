//! Which resources and modules the declarations of a Bicep file mention, directly or through variables.
//!
//! A caller may rely on `specs/Dependencies`: which resources and modules these are. `dependencies` looks at each
//! declaration once, in an order in which each comes after those that it mentions, and goes through no variable again.
#![tactic(auto)]

mod collecting;
mod filling;

pub use filling::dependencies;
