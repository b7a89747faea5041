// Elements: what an index after a value is.
ghost use Rattle.std.specs.Prelude.{◌≡◌};
ghost use Rattle.bicep_resolved.specs.View.{source_of, reach_of};
ghost use Rattle.bicep_resolved.specs.Source as s;
ghost use Rattle.bicep_found.specs.Found.{Gives, found};
ghost use Rattle.bicep_names.specs.Resolve as spec;

use bicep_found::Stop;
use bicep_found::join::{boxed_pair, boxed_with, let_go};
use bicep_resolved::{Reach, Source, Target};
use bicep_tree::Indexing;
use std::alloc::Global;

#[tactic(auto, using(bicep_resolved::proofs::ViewLemmas::enums))]
fn symbol_in(reach: &Reach) -> Option<(usize, Target)>
    ensures { result ≡ spec.symbol_in (reach_of reach.now) }
{
    match reach {
        Reach::Symbol(at, target) => Some((*at, *target)),
        Reach::Element(_, _, _) => None,
    }
}

// The resource or module that an expression is by its symbol alone, and the place.
#[tactic(auto, using(bicep_resolved::proofs::ViewLemmas::enums))]
fn whole_in(source: &Source) -> Option<(usize, Target)>
    ensures { result ≡ spec.whole_in (source_of source.now) }
{
    match source {
        Source::Instance(reach) => symbol_in(reach),
        Source::Name(..)
        | Source::Literal(..)
        | Source::Interpolated(..)
        | Source::Object(..)
        | Source::Array(..)
        | Source::Call(..)
        | Source::Field(..)
        | Source::Output(..)
        | Source::Member(..)
        | Source::Index(..)
        | Source::Prefix(..)
        | Source::Binary(..)
        | Source::Conditional(..) => None,
    }
}

// An element of a resource loop or a module loop.
#[tactic(auto, using(bicep_resolved::proofs::ViewLemmas::enums))]
fn loop_element(alloc: Global, at: usize, target: Target, index: Source) -> Result<Source, Stop>
    ensures { Gives source_of result (found (s.instance (s.element at target (source_of index)))) }
{
    match boxed_with(alloc, index, at) {
        Ok((index, at)) => Ok(Source::Instance(Reach::Element(at, target, index))),
        Err(_) => Err(Stop::OutOfMemory),
    }
}

// A part of a value by an index.
#[tactic(auto, using(bicep_resolved::proofs::ViewLemmas::enums))]
fn part(alloc: Global, whole: Source, indexing: Indexing, index: Source) -> Result<Source, Stop>
    ensures { Gives source_of result (found (s.index (source_of whole) indexing (source_of index))) }
{
    match boxed_pair(alloc, whole, index) {
        Ok((whole, index)) => Ok(Source::Index(whole, indexing, index)),
        Err(_) => Err(Stop::OutOfMemory),
    }
}

// `x[i]`
#[tactic(auto, unfolding(crate::specs::Resolve::element_of))]
fn element_of(alloc: Global, whole: Source, index: Source) -> Result<Source, Stop>
    ensures { Gives source_of result (found (spec.element_of (source_of whole) (source_of index))) }
{
    match whole_in(&whole) {
        Some((at, target)) => {
            let_go(whole);
            loop_element(alloc, at, target, index)
        }
        None => part(alloc, whole, Indexing::Plain, index),
    }
}

/// A part of a value by an index, or an element of a loop of resources or modules.
pub(crate) fn indexed(
    alloc: Global,
    whole: Source,
    indexing: Indexing,
    index: Source,
) -> Result<Source, Stop>
    ensures { Gives source_of result (found (spec.indexed (source_of whole) indexing (source_of index))) }
{
    match indexing {
        Indexing::Plain => element_of(alloc, whole, index),
        Indexing::Safe => part(alloc, whole, Indexing::Safe, index),
    }
}
