// Types, and places of parts that do not fit: offsets in the source, in bytes.
ghost use Rattle.std.specs.Prelude.{◌≡◌, Result};
ghost use Rattle.bicep_typing.specs.Typed as spec;

use bicep_signatures::{Kinds, ValueType};

/// A type, or the offset of the first part that does not fit.
pub type Typed = Result<ValueType, usize>;

/// That all parts fit, or the offset of the first that does not.
pub type Fitting = Result<(), usize>;

/// The type, where it fits the kinds that are taken at a place.
pub fn wanted(kinds: Kinds, at: usize, given: Typed) -> Typed
    ensures { result ≡ spec.wanted kinds at given }
{
    match given {
        Ok(given) => {
            if kinds.admits(given) {
                Ok(given)
            } else {
                Err(at)
            }
        }
        Err(fault) => Err(fault),
    }
}

// The second, where the first fits.
pub(crate) fn before(first: Typed, second: Typed) -> Typed
    ensures { result ≡ spec.before first second }
{
    match first {
        Ok(_) => second,
        Err(fault) => Err(fault),
    }
}

// The type, where the parts fit.
pub(crate) fn after(parts: Fitting, given: Typed) -> Typed
    ensures { result ≡ spec.before parts given }
{
    match parts {
        Ok(()) => given,
        Err(fault) => Err(fault),
    }
}

// This type, where a part has one.
pub(crate) fn always(answer: ValueType, given: Typed) -> Typed
    ensures { result ≡ spec.always answer given }
{
    match given {
        Ok(_) => Ok(answer),
        Err(fault) => Err(fault),
    }
}

// This type, where all parts fit.
pub(crate) fn whole(answer: ValueType, parts: Fitting) -> Typed
    ensures { result ≡ spec.always answer parts }
{
    match parts {
        Ok(()) => Ok(answer),
        Err(fault) => Err(fault),
    }
}
