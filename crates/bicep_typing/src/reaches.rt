// Resources and modules whose fields are asked for.
ghost use Rattle.std.specs.Prelude.{◌≡◌, Result};
ghost use Rattle.bicep_typing.specs.Typing as spec;

use crate::typed::{Fitting, Typed, wanted};
use bicep_resolved::Target;
use bicep_signatures::Kinds;

// A resource or a module by its symbol, which is at a place: one that is no loop.
#[tactic(auto, unfolding(crate::specs::Typing::single))]
pub(crate) fn single(at: usize, target: Target) -> Fitting
    ensures { result ≡ spec.single at target }
{
    match target {
        Target::Resource(_) | Target::Module(_, _) => Ok(()),
        Target::ResourceLoop(_) | Target::ModuleLoop(_, _) => Err(at),
    }
}

// The index of an element of a loop, which is at a place.
fn indexed(at: usize, index: Typed) -> Fitting
    ensures { result ≡ spec.indexed at index }
{
    match wanted(Kinds::Int, at, index) {
        Ok(_) => Ok(()),
        Err(fault) => Err(fault),
    }
}

// An element of the loop of a symbol, which is at a place; its index is at another.
#[tactic(auto, unfolding(crate::specs::Typing::element_of))]
pub(crate) fn element_of(at: usize, target: Target, index_at: usize, index: Typed) -> Fitting
    ensures { result ≡ spec.element_of at target index_at index }
{
    match target {
        Target::ResourceLoop(_) | Target::ModuleLoop(_, _) => indexed(index_at, index),
        Target::Resource(_) | Target::Module(_, _) => Err(at),
    }
}
