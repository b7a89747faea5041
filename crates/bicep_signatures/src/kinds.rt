//! Kinds of values that a place takes.
ghost use Rattle.std.specs.Prelude.{◌≡◌};
ghost use Rattle.bicep_signatures.specs.Kinds.{fits};

use crate::value_type::ValueType;

/// The kinds of values that a place takes.
#[derive(Clone, Copy, PartialEq, Eq)]
pub enum Kinds {
    /// None: there is no such place.
    Nothing,
    /// All.
    Anything,
    /// Texts.
    Text,
    /// Whole numbers.
    Int,
    /// Truth values.
    Bool,
    /// Objects.
    Object,
    /// Arrays.
    Array,
    /// Texts and whole numbers.
    TextOrInt,
    /// Texts and arrays.
    TextOrArray,
    /// Objects and arrays.
    ObjectOrArray,
    /// Texts, whole numbers and truth values.
    TextIntOrBool,
    /// Texts, objects and arrays.
    TextObjectOrArray,
    /// Null, objects and arrays.
    NullObjectOrArray,
    /// Null, texts, objects and arrays.
    AllButIntAndBool,
}

// Whether there is a place at all.
fn takes_some(kinds: Kinds) -> bool
    ensures { result ≡ fits kinds ValueType.Any }
{
    match kinds {
        Kinds::Nothing => false,
        Kinds::Anything
        | Kinds::Text
        | Kinds::Int
        | Kinds::Bool
        | Kinds::Object
        | Kinds::Array
        | Kinds::TextOrInt
        | Kinds::TextOrArray
        | Kinds::ObjectOrArray
        | Kinds::TextIntOrBool
        | Kinds::TextObjectOrArray
        | Kinds::NullObjectOrArray
        | Kinds::AllButIntAndBool => true,
    }
}

// Whether null is of the kinds.
fn takes_null(kinds: Kinds) -> bool
    ensures { result ≡ fits kinds ValueType.Null }
{
    match kinds {
        Kinds::Anything | Kinds::NullObjectOrArray | Kinds::AllButIntAndBool => true,
        Kinds::Nothing
        | Kinds::Text
        | Kinds::Int
        | Kinds::Bool
        | Kinds::Object
        | Kinds::Array
        | Kinds::TextOrInt
        | Kinds::TextOrArray
        | Kinds::ObjectOrArray
        | Kinds::TextIntOrBool
        | Kinds::TextObjectOrArray => false,
    }
}

// Whether a text is of the kinds.
fn takes_text(kinds: Kinds) -> bool
    ensures { result ≡ fits kinds ValueType.Text }
{
    match kinds {
        Kinds::Anything
        | Kinds::Text
        | Kinds::TextOrInt
        | Kinds::TextOrArray
        | Kinds::TextIntOrBool
        | Kinds::TextObjectOrArray
        | Kinds::AllButIntAndBool => true,
        Kinds::Nothing
        | Kinds::Int
        | Kinds::Bool
        | Kinds::Object
        | Kinds::Array
        | Kinds::ObjectOrArray
        | Kinds::NullObjectOrArray => false,
    }
}

// Whether a whole number is of the kinds.
fn takes_int(kinds: Kinds) -> bool
    ensures { result ≡ fits kinds ValueType.Int }
{
    match kinds {
        Kinds::Anything | Kinds::Int | Kinds::TextOrInt | Kinds::TextIntOrBool => true,
        Kinds::Nothing
        | Kinds::Text
        | Kinds::Bool
        | Kinds::Object
        | Kinds::Array
        | Kinds::TextOrArray
        | Kinds::ObjectOrArray
        | Kinds::TextObjectOrArray
        | Kinds::NullObjectOrArray
        | Kinds::AllButIntAndBool => false,
    }
}

// Whether a truth value is of the kinds.
fn takes_bool(kinds: Kinds) -> bool
    ensures { result ≡ fits kinds ValueType.Bool }
{
    match kinds {
        Kinds::Anything | Kinds::Bool | Kinds::TextIntOrBool => true,
        Kinds::Nothing
        | Kinds::Text
        | Kinds::Int
        | Kinds::Object
        | Kinds::Array
        | Kinds::TextOrInt
        | Kinds::TextOrArray
        | Kinds::ObjectOrArray
        | Kinds::TextObjectOrArray
        | Kinds::NullObjectOrArray
        | Kinds::AllButIntAndBool => false,
    }
}

// Whether an object is of the kinds.
fn takes_object(kinds: Kinds) -> bool
    ensures { result ≡ fits kinds ValueType.Object }
{
    match kinds {
        Kinds::Anything
        | Kinds::Object
        | Kinds::ObjectOrArray
        | Kinds::TextObjectOrArray
        | Kinds::NullObjectOrArray
        | Kinds::AllButIntAndBool => true,
        Kinds::Nothing
        | Kinds::Text
        | Kinds::Int
        | Kinds::Bool
        | Kinds::Array
        | Kinds::TextOrInt
        | Kinds::TextOrArray
        | Kinds::TextIntOrBool => false,
    }
}

// Whether an array is of the kinds.
fn takes_array(kinds: Kinds) -> bool
    ensures { result ≡ fits kinds ValueType.Array }
{
    match kinds {
        Kinds::Anything
        | Kinds::Array
        | Kinds::TextOrArray
        | Kinds::ObjectOrArray
        | Kinds::TextObjectOrArray
        | Kinds::NullObjectOrArray
        | Kinds::AllButIntAndBool => true,
        Kinds::Nothing
        | Kinds::Text
        | Kinds::Int
        | Kinds::Bool
        | Kinds::Object
        | Kinds::TextOrInt
        | Kinds::TextIntOrBool => false,
    }
}

impl Kinds {
    /// Whether a value of the type may stand where these kinds are taken. One of type `Any` may, wherever there is a
    /// place at all.
    pub fn admits(self, given: ValueType) -> bool
        ensures { result ≡ fits self given }
    {
        match given {
            ValueType::Any => takes_some(self),
            ValueType::Null => takes_null(self),
            ValueType::Text => takes_text(self),
            ValueType::Int => takes_int(self),
            ValueType::Bool => takes_bool(self),
            ValueType::Object => takes_object(self),
            ValueType::Array => takes_array(self),
        }
    }
}
