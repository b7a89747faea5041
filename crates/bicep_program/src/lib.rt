//! Bicep programs: a file and the files that its modules name.
//!
//! A caller may rely on it that a program is that of the files in a folder (`specs/Program`): each file once, read
//! once, the main file first, no file in a circle of modules. A refusal holds of the folder (`specs/Refused`). A path
//! is taken from the folder of the file in which it is written (`module_links`). Nothing recurses on the number of
//! files.
#![tactic(auto)]

mod circles;
mod fault;
mod file;
mod loading;
mod program;
mod sources;

pub use fault::LoadFault;
pub use file::{Program, SourceFile};
pub use program::load;
