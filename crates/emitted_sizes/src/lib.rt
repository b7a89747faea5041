//! How much of the limits template expressions take, before they are built.
//!
//! A caller may rely on each function returning the extent of the expression that its construct becomes, as
//! `bicep_emission` says in `specs/Emitted`. `specs/Extent` says what an extent is. Nothing is built.
#![tactic(auto)]

pub mod accesses;
pub mod calls;
pub mod characters;
mod extent;
pub mod literals;
pub mod operators;
pub mod states;

pub use emitted_parts::texts;
pub use extent::{Extent, Row};
