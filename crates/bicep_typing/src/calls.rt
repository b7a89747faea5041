// Calls of functions, one argument after another.
ghost use Rattle.std.specs.Prelude.{◌≡◌, Result, Option};
ghost use Rattle.bicep_resolved.specs.View.{row_name};
ghost use Rattle.bicep_signatures.specs.Table.{signatures_of};
ghost use Rattle.bicep_typing.specs.Typing as spec;

use crate::typed::Typed;
use arm_functions::Row;
use bicep_signatures::Signatures;

// The ways to call a function that are left, or the offset of the first part that does not fit.
pub(crate) type Ways = Result<Signatures, usize>;

// The ways to call a function at a place with so many arguments.
#[tactic(auto, using(bicep_signatures::proofs::NameLemmas::in_small_letters), unfolding(crate::specs::Typing::ways_at))]
pub(crate) fn ways_at(row: &Row, count: usize, at: usize) -> Ways
    ensures { result ≡ spec.ways_at (signatures_of (row_name row.now) count) at }
{
    match Signatures::of(row.name, count) {
        Some(ways) => Ok(ways),
        None => Err(at),
    }
}

// The ways, where there are some.
fn some_left(ways: Signatures, at: usize) -> Ways
    ensures { result ≡ spec.some_left ways at }
{
    if ways.value().is_some() {
        Ok(ways)
    } else {
        Err(at)
    }
}

// The ways that are left after an argument at a place.
#[tactic(auto, unfolding(crate::specs::Typing::taken))]
pub(crate) fn taken(ways: Ways, at: usize, given: Typed) -> Ways
    ensures { result ≡ spec.taken ways at given }
{
    match ways {
        Ok(ways) => match given {
            Ok(given) => some_left(ways.after(given), at),
            Err(fault) => Err(fault),
        },
        Err(fault) => Err(fault),
    }
}

// The type of the values of a function that is called at a place in one of these ways.
#[tactic(auto, unfolding(crate::specs::Typing::value_of_ways))]
pub(crate) fn value_of_ways(ways: Ways, at: usize) -> Typed
    ensures { result ≡ spec.value_of_ways ways at }
{
    match ways {
        Ok(ways) => match ways.value() {
            Some(found) => Ok(found),
            None => Err(at),
        },
        Err(fault) => Err(fault),
    }
}
