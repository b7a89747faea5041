//! The board of a deployment: which task may begin, and what has happened.
//!
//! `specs/Boards.antt` of `board_dealing` says what a board does when it is asked for a job, and `specs/Kept.antt` what
//! it keeps. `specs/Replays.antt` of `board_replays` says how it goes on after recorded answers.
#![tactic(auto)]

mod board;
mod dealer;
mod ending;
pub mod laws;
mod naming;
mod opening;

pub use board::Board;
pub use board_history::letting_go;
pub use ending::Ending;
