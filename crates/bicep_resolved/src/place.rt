// Where the nodes of an expression begin: offsets in the source, in bytes.

ghost use Rattle.std.specs.Prelude.{◌≡◌};
ghost use Rattle.bicep_resolved.specs.Place.{offset, reach_offset, value_offset};
ghost use Rattle.bicep_resolved.specs.View.{source_of, reach_of, value_of};

use crate::source::{Reach, Source, SourceValue};

impl Reach {
    /// The offset of the symbol in the source, in bytes.
    #[tactic(auto, using(crate::proofs::ViewLemmas::enums, crate::proofs::ViewLemmas::structs))]
    pub fn at(&self) -> usize
        ensures { result ≡ reach_offset (reach_of self.now) }
    {
        match self {
            Reach::Symbol(at, _) => *at,
            Reach::Element(at, _, _) => *at,
        }
    }
}

impl Source {
    /// The offset of the expression's first token in the source, in bytes, parentheses left out.
    #[tactic(auto, using(crate::proofs::ViewLemmas::enums, crate::proofs::ViewLemmas::structs))]
    pub fn at(&self) -> usize
        ensures { result ≡ offset (source_of self.now) }
    {
        match self {
            Source::Name(at, _) => *at,
            Source::Literal(at, _) => *at,
            Source::Interpolated(at, _, _) => *at,
            Source::Object(at, _) => *at,
            Source::Array(at, _) => *at,
            Source::Call(at, _, _) => *at,
            Source::Instance(reach) => reach.at(),
            Source::Field(reach, _, _) => reach.at(),
            Source::Output(reach, _, _) => reach.at(),
            Source::Member(inner, _, _) => inner.at(),
            Source::Index(inner, _, _) => inner.at(),
            Source::Prefix(at, _, _) => *at,
            Source::Binary(_, left, _) => left.at(),
            Source::Conditional(condition, _, _) => condition.at(),
        }
    }
}

impl SourceValue {
    /// The offset of the value's first token in the source, in bytes: the `[` of a for-expression.
    #[tactic(auto, using(crate::proofs::ViewLemmas::enums, crate::proofs::ViewLemmas::structs))]
    pub fn at(&self) -> usize
        ensures { result ≡ value_offset (value_of self.now) }
    {
        match self {
            SourceValue::Plain(expression) => expression.at(),
            SourceValue::Each(each, _) => each.at,
        }
    }
}
