//! Where a part of a file goes after it was read, and what may open there.
//!
//! A caller may rely on it that each function gives what its definition in `specs/Closing` of `bicep_machine` gives:
//! where the token leads, and what is open there. `Refused` comes exactly where that definition gives nothing, unless
//! memory was refused; nothing is said of the stack then. No function here takes a token.
#![tactic(auto)]

mod bodies;
mod calls;
mod items;
mod loops;
mod objects;

pub use bodies::{end_body, guard};
pub use calls::{close_call, end_call};
pub use items::{close_items, end_items, part_items};
pub use loops::{item_on, over_on, pair_on, put_each};
pub use objects::{close_member, close_members, put_member};
