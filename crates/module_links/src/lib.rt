//! Files that name each other by paths: which file a path names, and by which numbers.
//!
//! A caller may rely on `specs/Paths`: a path is taken from the folder of the file in which it is written, and never
//! leaves the folder of all files. The files that were named are entries, each once, and a number is a place among
//! them (`specs/Links`). Nothing here reads a file, and nothing recurses.
#![tactic(auto)]

mod entry;
mod links;
mod paths;

pub use entry::Entry;
pub use links::{LinkFault, MAX_PROGRAM_FILES, link};
pub use paths::file_at;
