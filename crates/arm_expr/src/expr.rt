// The tree of an expression.

use arm_value::Text;

/// An expression of a template, as its text spells it.
#[derive(Debug, Drop)]
pub enum Expr {
    /// A string between quotes.
    Text(Text),
    Int(i64),
    /// A call of a function by its name.
    Call(Text, Exprs),
    /// The member of that name.
    Member(Box<Expr>, Text),
    /// The part at the index, which comes second.
    Index(Box<Expr>, Box<Expr>),
}

/// The arguments of a call.
pub type Exprs = Vec<Expr>;
