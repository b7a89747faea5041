// Why a program is not loaded.

use arm_value::{Text, Texts};
use bicep_lexer::LexFault;
use bicep_parser::ParseFault;
use thiserror::Error;

/// Why a program is not loaded. A file is named by its path from the folder of all files on, with `/` between the
/// segments.
#[derive(Debug, Drop, Error)]
pub enum LoadFault {
    /// The second text is a path that is written in the first file, and it names no file or one outside the folder.
    /// For the main file both are the name that was given.
    #[error("there is no module {1} of {0}")]
    ModuleMissing(Text, Text),
    /// Each of these files names the next as a module, and the last names the first.
    #[error("modules name each other in a circle")]
    ModuleCycle(Texts),
    /// The main file and its modules are more than 65 files.
    #[error("more than 65 files")]
    TooManyFiles,
    /// A file could not be read, and the tree's count of faults rose.
    #[error("a file could not be read")]
    ReadFault,
    /// The file has more than 4,194,304 bytes.
    #[error("{0} is too large")]
    TooLarge(Text),
    /// The file is not in UTF-8.
    #[error("{0} is no text")]
    NotText(Text),
    /// The lexer refused the file. The fault is never its `OutOfMemory`.
    #[error("{0}: {1}")]
    Lex(Text, LexFault),
    /// The parser refused the file. The fault is never its `OutOfMemory`.
    #[error("{0}: {1}")]
    Parse(Text, ParseFault),
    /// Out of memory.
    #[error("out of memory")]
    OutOfMemory,
}
