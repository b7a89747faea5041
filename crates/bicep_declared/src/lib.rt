//! The declarations of a Bicep file whose names are found.
//!
//! A caller may rely on `specs/Declare`: what each declaration and each output of a file is, or the first name in them
//! that means nothing, and on `specs/View`: which tree a value of these types represents. The declaration of a symbol
//! is at the symbol's number. `declare_file` recurses as deep as expressions and resources nest.
#![tactic(auto)]

mod bodies;
mod declarations;
pub mod declared;
mod files;
mod sites;

pub use declared::{Declared, DeclaredBody, DeclaredFile, DeclaredOutput};
pub use files::declare_file;
