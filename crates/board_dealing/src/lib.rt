//! What a board does where it is asked for a job: scopes are entered and left, and a task is begun.
//!
//! `specs/Boards.antt` says what is done, and `specs/Kept.antt` what a board keeps. The functions take the parts of a
//! board; the board itself is in `deploy_core`.
#![tactic(auto)]

pub mod beginning;
pub mod dealing;
mod dropping;
pub mod laws;
pub mod looking;
pub mod passing;
pub mod waking;

pub use dropping::run_out;
