//! What is wrong with a program.

use arm_value::Texts;

/// What is wrong with a program. The first number is that of a file in the program, the second is an offset in it, in
/// bytes.
#[derive(Drop)]
pub enum CheckFault {
    /// The name means nothing.
    UnknownName(usize, usize),
    /// The name was given before, or is taken.
    NameTwice(usize, usize),
    /// The part has no type that fits its place, or is the value of metadata and no literal.
    WrongType(usize, usize),
    /// The declaration of each of these symbols mentions the next, and the last the first, which is declared first.
    SymbolCycle(usize, Texts),
    /// The decorator may not be where it is, has other arguments than it takes, or was given before.
    BadDecorator(usize, usize),
    /// What begins there may not be where it is.
    BadForPlace(usize, usize),
    /// The module of that name lacks an argument for a parameter without a default.
    MissingModuleParameter(usize, usize),
    /// The argument names no parameter of the file of its module.
    ExtraModuleParameter(usize, usize),
    /// Out of memory.
    OutOfMemory,
}
