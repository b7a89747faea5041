//! Expressions and the members of their objects. A place is an offset in the source, in bytes.

use crate::leaf::{
    Access, Function, Indexing, Label, Literal, LoopNames, Name, Operator, Prefix, Quoted,
};
use arm_value::Text;

/// An expression. A number in front of a variant is the offset of its first token in the source, in bytes.
/// The other variants begin where their first part begins (`Expr::at`).
#[cycle(tree)]
#[derive(Drop)]
pub enum Expr {
    /// `n`
    Name(Name),
    /// `1`, `'a'`, `true`, `false` or `null`
    Literal(usize, Literal),
    /// `'a${x}b'`: the characters before the first hole, and one or more holes.
    Interpolated(usize, Text, Vec<Hole>),
    /// `{ .. }`
    Object(Object),
    /// `[a, b]`
    Array(usize, Vec<Expr>),
    /// `(e)`
    Parentheses(usize, Box<Expr>),
    /// `f(a, b)`
    Call(Function, Vec<Expr>),
    /// `e.n`, `e.?n` or `e::n`
    Access(Box<Expr>, Access, Name),
    /// `e[i]` or `e[?i]`
    Index(Box<Expr>, Indexing, Box<Expr>),
    /// `e!`
    NotNull(Box<Expr>),
    /// `!e` or `-e`
    Prefix(usize, Prefix, Box<Expr>),
    /// `a + b` and the like
    Binary(Operator, Box<Expr>, Box<Expr>),
    /// `c ? a : b`
    Conditional(Box<Expr>, Box<Expr>, Box<Expr>),
}

/// A hole of an interpolated text, and the characters from its `}` to the next hole or the end.
#[cycle(tree)]
#[derive(Drop)]
pub struct Hole {
    /// The expression between `${` and `}`.
    pub value: Expr,
    /// The characters after it, with escapes replaced.
    pub after: Text,
}

/// `{ .. }` and its place.
#[cycle(tree)]
#[derive(Drop)]
pub struct Object {
    /// The offset of its `{`, in bytes.
    pub at: usize,
    /// Its members in order.
    pub members: Vec<Member>,
}

/// A member of an object.
#[cycle(tree)]
#[derive(Drop)]
pub enum Member {
    /// `name: value`
    Property(Label, Value),
    /// A resource inside a resource, with its decorators.
    Child(Vec<Decorator>, Resource),
}

/// The value of a variable, an output or a property.
#[cycle(tree)]
#[derive(Drop)]
pub enum Value {
    /// `e`
    Plain(Expr),
    /// `[for x in xs: e]`
    Each(Loop, Expr),
}

/// `[for x in xs:` and its place.
#[cycle(tree)]
#[derive(Drop)]
pub struct Loop {
    /// The offset of its `[`, in bytes.
    pub at: usize,
    /// The names of an item.
    pub names: LoopNames,
    /// What it runs over.
    pub over: Expr,
}

/// `@f(a)` and its place.
#[cycle(tree)]
#[derive(Drop)]
pub struct Decorator {
    /// The offset of its `@`, in bytes.
    pub at: usize,
    /// `f`, or `sys.f`.
    pub function: Function,
    /// Its arguments in order.
    pub arguments: Vec<Expr>,
}

/// `resource name 'type@version' = body` and its place.
#[cycle(tree)]
#[derive(Drop)]
pub struct Resource {
    /// The offset of the word `resource`, in bytes.
    pub at: usize,
    /// Its symbol.
    pub name: Name,
    /// Its type text, `type@version`.
    pub path: Quoted,
    /// Whether the word `existing` is written before the `=`.
    pub existing: bool,
    /// The part after the `=`.
    pub body: Body,
}

/// The part of a resource or a module after its `=`.
#[cycle(tree)]
#[derive(Drop)]
pub enum Body {
    /// `{ .. }`
    Plain(Object),
    /// `if (c) { .. }`, with the offset of the `if` in bytes.
    If(usize, Expr, Object),
    /// `[for x in xs: { .. }]`
    Each(Loop, Object),
    /// `[for x in xs: if (c) { .. }]`, with the offset of the `if` in bytes.
    EachIf(Loop, usize, Expr, Object),
}
