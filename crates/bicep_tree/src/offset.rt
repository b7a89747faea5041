// Where the nodes of a tree begin: offsets in the source, in bytes.

ghost use Rattle.std.specs.Prelude.{◌≡◌};
ghost use Rattle.bicep_tree.specs.Offset.{function_offset, label_offset, offset, value_offset};
ghost use Rattle.bicep_tree.specs.Offset.{body_offset, declaration_offset};
ghost use Rattle.bicep_tree.specs.View.{tree_of, value_of, body_of, declaration_of};

use crate::declaration::Declaration;
use crate::expr::{Body, Expr, Value};
use crate::leaf::{Function, Label};

impl Function {
    /// The offset of the name's first token in the source, in bytes.
    pub fn at(&self) -> usize
        ensures { result ≡ function_offset self.now }
    {
        match self {
            Function::Plain(name) => name.at,
            Function::Qualified(at, _, _) => *at,
        }
    }
}

impl Label {
    /// The offset of the member's name in the source, in bytes: of its first quote, where it is quoted.
    pub fn at(&self) -> usize
        ensures { result ≡ label_offset self.now }
    {
        match self {
            Label::Name(name) => name.at,
            Label::Quoted(quoted) => quoted.at,
        }
    }
}

impl Expr {
    /// The offset of the expression's first token in the source, in bytes.
    #[tactic(auto, using(crate::proofs::ViewLemmas::enums, crate::proofs::ViewLemmas::structs))]
    pub fn at(&self) -> usize
        ensures { result ≡ offset (tree_of self.now) }
    {
        match self {
            Expr::Name(name) => name.at,
            Expr::Literal(at, _) => *at,
            Expr::Interpolated(at, _, _) => *at,
            Expr::Object(object) => object.at,
            Expr::Array(at, _) => *at,
            Expr::Parentheses(at, _) => *at,
            Expr::Call(function, _) => function.at(),
            Expr::Access(inner, _, _) => inner.at(),
            Expr::Index(inner, _, _) => inner.at(),
            Expr::NotNull(inner) => inner.at(),
            Expr::Prefix(at, _, _) => *at,
            Expr::Binary(_, left, _) => left.at(),
            Expr::Conditional(condition, _, _) => condition.at(),
        }
    }
}

impl Value {
    /// The offset of the value's first token in the source, in bytes: the `[` of a for-expression.
    #[tactic(auto, using(crate::proofs::ViewLemmas::enums, crate::proofs::ViewLemmas::structs))]
    pub fn at(&self) -> usize
        ensures { result ≡ value_offset (value_of self.now) }
    {
        match self {
            Value::Plain(expr) => expr.at(),
            Value::Each(names, _) => names.at,
        }
    }
}

impl Body {
    /// The offset of the body's first token in the source, in bytes: its `{`, its `if`, or the `[` of a
    /// for-expression.
    #[tactic(auto, using(crate::proofs::ViewLemmas::enums, crate::proofs::ViewLemmas::structs))]
    pub fn at(&self) -> usize
        ensures { result ≡ body_offset (body_of self.now) }
    {
        match self {
            Body::Plain(object) => object.at,
            Body::If(at, _, _) => *at,
            Body::Each(names, _) => names.at,
            Body::EachIf(names, _, _, _) => names.at,
        }
    }
}

impl Declaration {
    /// The offset of the declaration's first word in the source, in bytes; its decorators come before it.
    #[tactic(auto, using(crate::proofs::ViewLemmas::structs))]
    pub fn at(&self) -> usize
        ensures { result ≡ declaration_offset (declaration_of self.now) }
    {
        match self {
            Declaration::Metadata(at, _, _) => *at,
            Declaration::TargetScope(at, _) => *at,
            Declaration::Param(at, _, _) => *at,
            Declaration::ParamWith(at, _, _, _) => *at,
            Declaration::Var(at, _, _) => *at,
            Declaration::Output(at, _, _, _) => *at,
            Declaration::Resource(resource) => resource.at,
            Declaration::Module(at, _, _, _) => *at,
        }
    }
}
