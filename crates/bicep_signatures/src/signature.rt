//! Ways to call a function.
ghost use Rattle.std.specs.Prelude.{◌≡◌};
ghost use Rattle.bicep_signatures.specs.Signatures.{advanced, result_in, left_after, result_of};

use crate::kinds::Kinds;
use crate::value_type::ValueType;

/// What a function takes and gives. How many arguments it takes is not said here.
#[derive(Clone, Copy)]
pub struct Signature {
    /// The kinds of the next argument.
    pub first: Kinds,
    /// The kinds of the argument after it.
    pub second: Kinds,
    /// The kinds of each further argument.
    pub rest: Kinds,
    /// The type of the value.
    pub value: ValueType,
}

/// Up to three ways to call a function, of which its arguments have to fit one.
#[derive(Clone, Copy)]
pub struct Signatures {
    /// The first way.
    pub one: Option<Signature>,
    /// The second way.
    pub two: Option<Signature>,
    /// The third way.
    pub three: Option<Signature>,
}

// The way after an argument of that type, if it takes one.
fn advanced(way: Option<Signature>, given: ValueType) -> Option<Signature>
    ensures { result ≡ advanced way given }
{
    match way {
        Some(way) => {
            if way.first.admits(given) {
                Some(Signature {
                    first: way.second,
                    second: way.rest,
                    rest: way.rest,
                    value: way.value,
                })
            } else {
                None
            }
        }
        None => None,
    }
}

// The type that values have by either way.
fn joined(one: Option<ValueType>, other: Option<Signature>) -> Option<ValueType>
    ensures { result ≡ result_in one other }
{
    match one {
        Some(one) => match other {
            Some(other) => Some(one.common(other.value)),
            None => Some(one),
        },
        None => match other {
            Some(other) => Some(other.value),
            None => None,
        },
    }
}

impl Signatures {
    /// The ways that are left after an argument of that type; none of them where none takes it.
    pub fn after(self, given: ValueType) -> Signatures
        ensures { result ≡ left_after self given }
    {
        Signatures {
            one: advanced(self.one, given),
            two: advanced(self.two, given),
            three: advanced(self.three, given),
        }
    }

    /// The one type of the values that these ways give, else `Any`; none where there is no way.
    pub fn value(self) -> Option<ValueType>
        ensures { result ≡ result_of self }
    {
        joined(joined(joined(None, self.one), self.two), self.three)
    }
}
