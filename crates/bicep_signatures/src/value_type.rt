//! Types of values.
ghost use Rattle.std.specs.Prelude.{◌≡◌};
ghost use Rattle.bicep_signatures.specs.Types.{common};

/// What is known of a value before it is there.
#[derive(Clone, Copy, PartialEq, Eq)]
pub enum ValueType {
    /// Nothing: it may be any value.
    Any,
    /// It is null.
    Null,
    /// It is a text.
    Text,
    /// It is a whole number.
    Int,
    /// It is a truth value.
    Bool,
    /// It is an object.
    Object,
    /// It is an array.
    Array,
}

impl ValueType {
    /// The type of a value that is one of either type: the one type of both, else `Any`.
    pub fn common(self, other: ValueType) -> ValueType
        ensures { result ≡ common self other }
    {
        match (self, other) {
            (ValueType::Null, ValueType::Null) => ValueType::Null,
            (ValueType::Text, ValueType::Text) => ValueType::Text,
            (ValueType::Int, ValueType::Int) => ValueType::Int,
            (ValueType::Bool, ValueType::Bool) => ValueType::Bool,
            (ValueType::Object, ValueType::Object) => ValueType::Object,
            (ValueType::Array, ValueType::Array) => ValueType::Array,
            _ => ValueType::Any,
        }
    }
}
