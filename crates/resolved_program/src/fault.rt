// Why the names of a program are not found.

/// Why the names of a program are not found. The first number is that of a file in the program, the second is an offset
/// in it, in bytes.
#[derive(Clone, Copy, PartialEq, Eq, Debug)]
pub enum ResolveFault {
    /// The name was given before, or is taken.
    Twice(usize, usize),
    /// The name means nothing.
    Unknown(usize, usize),
    /// Out of memory.
    OutOfMemory,
}
