//! The board of a plan.
//!
//! `open_board` makes the board of a plan that nothing refuses, over what is held, and `reopen_board` the same after
//! recorded answers. So a caller has to show nothing of tasks, needs and what is known.
#![tactic(auto)]

mod opening;

pub use arm_plan::{Plan, plan};
pub use opening::{open_board, reopen_board};
