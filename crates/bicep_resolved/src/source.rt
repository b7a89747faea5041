//! Expressions whose names are found. A place is an offset in the source, in bytes.

use crate::leaf::{Field, Meaning, Selector, Target};
use arm_functions::Row;
use arm_value::Text;
use bicep_tree::{Indexing, Literal, Name, Operator, Prefix};

/// An expression. A number in front of a variant is the offset of its first token in the source, in bytes. The other
/// variants begin where their first part begins.
#[cycle(source)]
#[derive(Drop)]
pub enum Source {
    /// A parameter, a variable, or the item or the index of a loop.
    Name(usize, Meaning),
    /// `1`, `'a'`, `true`, `false` or `null`
    Literal(usize, Literal),
    /// `'a${x}b'`: the characters before the first hole, and one or more holes.
    Interpolated(usize, Text, Vec<Piece>),
    /// `{ .. }`
    Object(usize, Vec<Property>),
    /// `[a, b]`
    Array(usize, Vec<Source>),
    /// `f(a, b)`, by the row of the function.
    Call(usize, Row, Vec<Source>),
    /// A resource or a module.
    Instance(Reach),
    /// A field of a resource or a module, and the offset of its name.
    Field(Reach, usize, Field),
    /// `m.outputs.x`: an output of a module by its number among the outputs of the module's file, and the offset of
    /// its name.
    Output(Reach, usize, usize),
    /// `e.n` or `e.?n` of a value.
    Member(Box<Source>, Selector, Name),
    /// `e[i]` or `e[?i]` of a value.
    Index(Box<Source>, Indexing, Box<Source>),
    /// `!e` or `-e`
    Prefix(usize, Prefix, Box<Source>),
    /// `a + b` and the like
    Binary(Operator, Box<Source>, Box<Source>),
    /// `c ? a : b`
    Conditional(Box<Source>, Box<Source>, Box<Source>),
}

/// A resource or a module: by its symbol, or as an element of its loop.
#[cycle(source)]
#[derive(Drop)]
pub enum Reach {
    /// `s`
    Symbol(usize, Target),
    /// `s[e]`
    Element(usize, Target, Box<Source>),
}

/// A hole of an interpolated text, and the characters from its `}` to the next hole or the end.
#[cycle(source)]
#[derive(Drop)]
pub struct Piece {
    /// The expression between `${` and `}`.
    pub value: Source,
    /// The characters after it, with escapes replaced.
    pub after: Text,
}

/// A member of an object.
#[cycle(source)]
#[derive(Drop)]
pub struct Property {
    /// The offset of its name, in bytes.
    pub at: usize,
    /// The characters of its name.
    pub name: Text,
    /// Its value.
    pub value: SourceValue,
}

/// The value of a variable, an output or a property.
#[cycle(source)]
#[derive(Drop)]
pub enum SourceValue {
    /// `e`
    Plain(Source),
    /// `[for x in xs: e]`
    Each(SourceLoop, Source),
}

/// `[for x in xs:` and its place. Its body has one loop more around it.
#[cycle(source)]
#[derive(Drop)]
pub struct SourceLoop {
    /// The offset of its `[`, in bytes.
    pub at: usize,
    /// What it runs over.
    pub over: Source,
}
