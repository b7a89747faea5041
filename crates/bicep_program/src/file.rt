// Programs and their files.

use arm_value::Text;
use bicep_parser::File;

/// A file of a program.
#[derive(Drop)]
pub struct SourceFile {
    /// Its path from the folder of all files on, with `/` between the segments.
    pub name: Text,
    /// The file.
    pub file: File,
    /// For each of its modules in order the number of the file that it names.
    pub modules: Vec<u32>,
}

/// A main file and the files that its modules name, the main file first.
#[derive(Drop)]
pub struct Program {
    /// The files.
    pub files: Vec<SourceFile>,
}
