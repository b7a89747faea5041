//! Checked programs.

use bicep_signatures::ValueType;
use resolved_program::ResolvedProgram;

/// The types of a program, by the numbers of its files.
#[derive(Drop)]
pub struct Types {
    /// For each file the types of its symbols by their numbers. Those of resources and modules are `Any`.
    pub symbols: Vec<Vec<ValueType>>,
    /// For each file the types of its outputs in source order.
    pub outputs: Vec<Vec<ValueType>>,
}

/// A program in which nothing is wrong. The type of each expression is `bicep_typing::type_of` of the expression, by
/// the types of the symbols of its file and of all outputs; it takes no memory.
#[derive(Drop)]
pub struct Checked {
    /// The program with its names found.
    pub resolved: ResolvedProgram,
    /// Its types.
    pub types: Types,
}
