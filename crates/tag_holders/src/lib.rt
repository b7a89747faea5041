//! Who has a tag for which is asked: nobody, things of one class, or things of two classes.
//!
//! Things are numbered from 0; each has tags and a class, which are lists of numbers. `holders_of` keeps for each tag
//! who has it, `find_holders` looks the tags up for which is asked, so that no thing is compared with each other one.
//! `specs/Holders` has the definitions.
#![tactic(auto)]

mod find;
mod holders;

pub use find::find_holders;
pub use holders::{Found, Holders, holders_of};
