//! The parts of a tree that have no parts of their own. A place is an offset in the source, in bytes.

use arm_value::Text;

/// A name and its place.
#[derive(Drop)]
pub struct Name {
    /// The offset of its first byte, in bytes.
    pub at: usize,
    /// Its characters.
    pub text: Text,
}

/// A text without interpolation and its place.
#[derive(Drop)]
pub struct Quoted {
    /// The offset of its first quote, in bytes.
    pub at: usize,
    /// The characters that it means, without its quotes and with its escapes replaced.
    pub text: Text,
}

/// The name of a member of an object.
#[derive(Drop)]
pub enum Label {
    /// `n`
    Name(Name),
    /// `'n'`
    Quoted(Quoted),
}

/// A value that is one token.
#[derive(Drop)]
pub enum Literal {
    /// A whole number from 0 to 2^63 - 1.
    Number(i64),
    /// A text without interpolation, by the characters that it means.
    Text(Text),
    /// `true`
    True,
    /// `false`
    False,
    /// `null`
    Null,
}

/// The names that a for-expression gives to an item.
#[derive(Drop)]
pub enum LoopNames {
    /// `x`
    Item(Name),
    /// `(x, i)`: an item and its index.
    Both(Name, Name),
}

/// A name space of functions.
#[derive(Clone, Copy, PartialEq, Eq)]
pub enum Namespace {
    /// `sys`
    Sys,
    /// `az`
    Az,
}

/// The function that is called.
#[derive(Drop)]
pub enum Function {
    /// `f`
    Plain(Name),
    /// `sys.f` or `az.f`, with the offset of `sys` or `az` in bytes.
    Qualified(usize, Namespace, Name),
}

/// How a part of a value is named, after the value.
#[derive(Clone, Copy, PartialEq, Eq)]
pub enum Access {
    /// `.`
    Member,
    /// `.?`
    SafeMember,
    /// `::`
    Nested,
}

/// How an index is written, after a value.
#[derive(Clone, Copy, PartialEq, Eq)]
pub enum Indexing {
    /// `[i]`
    Plain,
    /// `[?i]`
    Safe,
}

/// An operator that is written before its operand.
#[derive(Clone, Copy, PartialEq, Eq)]
pub enum Prefix {
    /// `!`
    Not,
    /// `-`
    Negate,
}

/// An operator that is written between its operands.
#[derive(Clone, Copy, PartialEq, Eq)]
pub enum Operator {
    /// `??`
    Coalesce,
    /// `||`
    Or,
    /// `&&`
    And,
    /// `==`
    Equals,
    /// `!=`
    NotEquals,
    /// `=~`
    EqualsInsensitive,
    /// `!~`
    NotEqualsInsensitive,
    /// `<`
    Less,
    /// `<=`
    LessOrEqual,
    /// `>`
    Greater,
    /// `>=`
    GreaterOrEqual,
    /// `+`
    Add,
    /// `-`
    Subtract,
    /// `*`
    Multiply,
    /// `/`
    Divide,
    /// `%`
    Remainder,
}

/// The type of a parameter or an output.
#[derive(Clone, Copy, PartialEq, Eq)]
pub enum TypeName {
    /// `string`
    String,
    /// `int`
    Int,
    /// `bool`
    Bool,
    /// `object`
    Object,
    /// `array`
    Array,
}
