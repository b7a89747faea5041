// What `dependsOn` and `parent` may be.
ghost use Rattle.std.specs.Prelude.{◌≡◌, map, Some, None, if◌then◌else◌};
ghost use Rattle.bicep_resolved.specs.View as view;
ghost use Rattle.bicep_resolved.specs.View.{sources};
ghost use Rattle.bicep_placed.specs.Links as spec;

use bicep_resolved::{Reach, Source, SourceValue, Target};

fn is_loop(target: Target) -> bool
    ensures { result ≡ spec.is_loop target }
{
    match target {
        Target::ResourceLoop(_) | Target::ModuleLoop(_, _) => true,
        Target::Resource(_) | Target::Module(_, _) => false,
    }
}

fn bad_element(at: usize, target: Target) -> Option<usize>
    ensures { result ≡ (if spec.is_loop target then None else Some at) }
{
    if is_loop(target) {
        return None;
    }
    Some(at)
}

// An element is one of a loop.
#[tactic(auto, using(bicep_resolved::proofs::ViewLemmas::enums))]
fn bad_reach(reach: &Reach) -> Option<usize>
    ensures { result ≡ spec.bad_reach (view.reach_of reach.now) }
{
    match reach {
        Reach::Symbol(_, _) => None,
        Reach::Element(at, target, _) => bad_element(*at, *target),
    }
}

#[tactic(auto, using(bicep_resolved::proofs::ViewLemmas::enums))]
fn bad_dependency(e: &Source) -> Option<usize>
    ensures { result ≡ spec.bad_dependency (view.source_of e.now) }
{
    match e {
        Source::Instance(reach) => bad_reach(reach),
        Source::Name(..)
        | Source::Literal(..)
        | Source::Interpolated(..)
        | Source::Object(..)
        | Source::Array(..)
        | Source::Call(..)
        | Source::Field(..)
        | Source::Output(..)
        | Source::Member(..)
        | Source::Index(..)
        | Source::Prefix(..)
        | Source::Binary(..)
        | Source::Conditional(..) => Some(e.at()),
    }
}

fn bad_dependencies(es: &[Source]) -> Option<usize>
    ensures { result ≡ spec.bad_dependencies (sources (map view.source_of es.now)) }
{
    for e in es {
        match bad_dependency(e) {
            Some(at) => return Some(at),
            None => {}
        }
    }
    None
}

#[tactic(auto, using(bicep_resolved::proofs::ViewLemmas::enums))]
fn bad_list(e: &Source) -> Option<usize>
    ensures { result ≡ spec.bad_list (view.source_of e.now) }
{
    match e {
        Source::Array(_, items) => bad_dependencies(items.as_slice()),
        Source::Name(..)
        | Source::Literal(..)
        | Source::Interpolated(..)
        | Source::Object(..)
        | Source::Call(..)
        | Source::Instance(..)
        | Source::Field(..)
        | Source::Output(..)
        | Source::Member(..)
        | Source::Index(..)
        | Source::Prefix(..)
        | Source::Binary(..)
        | Source::Conditional(..) => Some(e.at()),
    }
}

/// The offset of the first thing in a value of `dependsOn` that is no resource, no module and no element of a loop.
#[tactic(auto, using(bicep_resolved::proofs::ViewLemmas::enums, bicep_resolved::proofs::ViewLemmas::structs))]
pub(crate) fn bad_depends_on(value: &SourceValue) -> Option<usize>
    ensures { result ≡ spec.bad_depends_on (view.value_of value.now) }
{
    match value {
        SourceValue::Plain(e) => bad_list(e),
        SourceValue::Each(each, _) => Some(each.at),
    }
}

fn parent_of_symbol(target: Target) -> Option<usize>
    ensures { result ≡ spec.parent_of_symbol target }
{
    match target {
        Target::Resource(number) => Some(number),
        Target::ResourceLoop(_) | Target::Module(_, _) | Target::ModuleLoop(_, _) => None,
    }
}

fn parent_of_element(target: Target) -> Option<usize>
    ensures { result ≡ spec.parent_of_element target }
{
    match target {
        Target::ResourceLoop(number) => Some(number),
        Target::Resource(_) | Target::Module(_, _) | Target::ModuleLoop(_, _) => None,
    }
}

#[tactic(auto, using(bicep_resolved::proofs::ViewLemmas::enums))]
fn parent_reached(reach: &Reach) -> Option<usize>
    ensures { result ≡ spec.parent_reached (view.reach_of reach.now) }
{
    match reach {
        Reach::Symbol(_, target) => parent_of_symbol(*target),
        Reach::Element(_, target, _) => parent_of_element(*target),
    }
}

#[tactic(auto, using(bicep_resolved::proofs::ViewLemmas::enums))]
fn parent_in(e: &Source) -> Option<usize>
    ensures { result ≡ spec.parent_in (view.source_of e.now) }
{
    match e {
        Source::Instance(reach) => parent_reached(reach),
        Source::Name(..)
        | Source::Literal(..)
        | Source::Interpolated(..)
        | Source::Object(..)
        | Source::Array(..)
        | Source::Call(..)
        | Source::Field(..)
        | Source::Output(..)
        | Source::Member(..)
        | Source::Index(..)
        | Source::Prefix(..)
        | Source::Binary(..)
        | Source::Conditional(..) => None,
    }
}

/// The number of the resource that a value of `parent` is, where it is one: a resource that is no loop, or an element
/// of a loop of resources.
#[tactic(auto, using(bicep_resolved::proofs::ViewLemmas::enums))]
pub(crate) fn parent_of(value: &SourceValue) -> Option<usize>
    ensures { result ≡ spec.parent_of (view.value_of value.now) }
{
    match value {
        SourceValue::Plain(e) => parent_in(e),
        SourceValue::Each(_, _) => None,
    }
}
