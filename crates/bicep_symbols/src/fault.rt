// Why the names of a file are not listed.

/// Why the names of a file are not listed.
#[derive(Clone, Copy, PartialEq, Eq, Debug)]
pub enum NameFault {
    /// The name at that offset was given before, or is taken. The offset is in bytes.
    Twice(usize),
    /// Out of memory.
    OutOfMemory,
}
