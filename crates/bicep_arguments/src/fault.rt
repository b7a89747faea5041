// What is wrong with the arguments of a module.

/// What is wrong with the arguments of a module. A place is an offset in bytes.
#[derive(Clone, Copy, PartialEq, Eq, Debug)]
pub enum ArgumentFault {
    /// The module whose name is at that offset lacks an argument for a parameter that has no default.
    Missing(usize),
    /// The argument at that offset names no parameter.
    Extra(usize),
}
