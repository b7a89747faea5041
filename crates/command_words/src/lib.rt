//! The words of a command: what the program is asked to do, in place of words.
//!
//! A caller may rely on exactly which words are a command, and on the file, the names and the options that each command
//! has; all other words have none. `specs/Words.antt` says what a word is by itself, `specs/Reading.antt` how the words
//! after a command are read, `specs/Given.antt` what they give in any order, and `specs/Commands.antt` which commands
//! there are.
#![tactic(auto)]

mod command;
mod given;
pub mod laws;
mod reading;
mod usage;
mod word;

pub use command::{Build, Command, Deploy, command_of};
pub use usage::USAGE;
