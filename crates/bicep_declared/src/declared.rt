//! Declarations whose names are found. A place is an offset in the source, in bytes.

use bicep_resolved::{Property, Source, SourceLoop, SourceValue};
use bicep_tree::{Quoted, TypeName};

/// The body of a resource or a module.
#[derive(Drop)]
pub struct DeclaredBody {
    /// What it runs over, where it is a loop.
    pub each: Option<SourceLoop>,
    /// Its condition, where it has one.
    pub condition: Option<Source>,
    /// The offset of its `{`, in bytes.
    pub at: usize,
    /// Its fields in source order.
    pub fields: Vec<Property>,
}

/// A declaration that has a symbol. A number is the offset of its name, in bytes.
#[derive(Drop)]
pub enum Declared {
    /// A parameter without a default.
    Parameter(usize, TypeName),
    /// A parameter with a default.
    ParameterWith(usize, TypeName, Source),
    /// A variable.
    Variable(usize, SourceValue),
    /// A resource: its type text, and whether it is an existing one.
    Resource(usize, Quoted, bool, DeclaredBody),
    /// A module.
    Module(usize, DeclaredBody),
}

/// An output.
#[derive(Drop)]
pub struct DeclaredOutput {
    /// The offset of its name, in bytes.
    pub at: usize,
    /// Its type.
    pub kind: TypeName,
    /// Its value.
    pub value: SourceValue,
}

/// A file.
#[derive(Drop)]
pub struct DeclaredFile {
    /// The declarations that have a symbol, by the numbers of their symbols.
    pub declarations: Vec<Declared>,
    /// The outputs in source order.
    pub outputs: Vec<DeclaredOutput>,
}
