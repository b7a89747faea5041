//! The parser of Bicep files: from tokens to the file that they spell.
//!
//! A caller may rely on what `parse` ensures, over the grammar of `bicep_tree`, and on it that no tokens
//! spell two files. One loop passes each token to the function of the machine's state, which is in
//! `bicep_expressions`, `bicep_objects` or `bicep_statements`, and notes after which token a part nests too deep.
//! What is open is on a stack, and what nests too deep is not kept, so no function recurses on a file.
#![tactic(auto)]

mod depth;
mod fault;
mod laws;
mod parsing;
mod stepping;
mod stops;

pub use bicep_tree::File;
pub use fault::ParseFault;
pub use laws::tokens_spell_one_file;
pub use parsing::parse;
