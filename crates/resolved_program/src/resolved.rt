//! Programs whose names are found.

use arm_value::Text;
use bicep_declared::DeclaredFile;
use bicep_symbols::Entry;

/// A file of a program.
#[derive(Drop)]
pub struct ResolvedFile {
    /// Its symbols in source order.
    pub entries: Vec<Entry>,
    /// The names of its outputs in source order.
    pub outputs: Vec<Text>,
    /// Its declarations, each at the number of its symbol, and its outputs.
    pub declared: DeclaredFile,
}

/// A program: its files in the order of `bicep_program`, the main file first.
#[derive(Drop)]
pub struct ResolvedProgram {
    /// The files.
    pub files: Vec<ResolvedFile>,
}
