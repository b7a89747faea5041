//! What is misplaced in a Bicep file, before any name is found.
//!
//! A caller may rely on `specs/Files`: the first misplaced thing in a file. `specs/Expressions` says where
//! for-expressions may be and which names properties may not have, `specs/Resources` what resources and modules may
//! have. Nothing here
//! takes memory; `misplaced` recurses as deep as expressions and resources nest.
#![tactic(auto)]

mod expressions;
mod files;
mod resources;
mod spot;
mod types;
mod words;

pub use files::misplaced;
pub use spot::{Owner, Repeated, Spot};
pub use types::is_one_segment;
