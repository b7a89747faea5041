//! The tree of a Bicep file, and which tokens spell it.
//!
//! A caller may rely on `specs/Expressions` and `specs/Declarations`: the grammar, by recursion on
//! the tree. `specs/Nesting` says how deep an expression nests, `specs/View` which tree a value of
//! these types represents. `terminal_of` says what the grammar sees in one token; the crate reads no
//! lists of tokens. `at` of a node is its place, an offset in the source in bytes (`specs/Offset`);
//! `Declaration::symbol` is the name that a declaration gives (`specs/Symbol`).
#![tactic(auto)]

pub mod declaration;
pub mod expr;
pub mod leaf;
mod offset;
mod symbol;
pub mod terminal;
mod token;
mod words;

pub use declaration::{Declaration, File, Statement};
pub use expr::{Body, Decorator, Expr, Hole, Loop, Member, Object, Resource, Value};
pub use leaf::{
    Access, Function, Indexing, Label, Literal, LoopNames, Name, Namespace, Operator, Prefix,
    Quoted, TypeName,
};
pub use terminal::Terminal;
pub use token::terminal_of;
pub use words::is_word;
