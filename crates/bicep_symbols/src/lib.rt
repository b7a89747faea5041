//! The symbols and outputs of a Bicep file, and names that are given twice.
//!
//! A caller may rely on `specs/Entries`: which symbols a file has, in which order and of which kind, on
//! `specs/Outputs`, and on `specs/Names`: the first name that is given twice. `names_of` recurses as deep as resources
//! and expressions nest.
#![tactic(auto)]

mod entry;
mod fault;
mod listing;
mod names;
mod outputs;
mod registry;

pub use entry::Entry;
pub use fault::NameFault;
pub use names::{FileNames, names_of};
