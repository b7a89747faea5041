// Why names are not found.

/// Why names are not found.
#[derive(Clone, Copy, PartialEq, Eq, Debug)]
pub enum Stop {
    /// The name at that offset means nothing. The offset is in bytes of the source.
    Unknown(usize),
    /// Out of memory.
    OutOfMemory,
}
