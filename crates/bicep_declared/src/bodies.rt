// Bodies of resources and modules whose names are found.
ghost use Rattle.std.specs.Prelude.{◌≡◌, ◌∷◌, [], map};
ghost use Rattle.bicep_tree.specs.View as view;
ghost use Rattle.bicep_tree.specs.View.{tree_of};
ghost use Rattle.bicep_resolved.specs.Source.{SourceTree, PropertyTrees};
ghost use Rattle.bicep_resolved.specs.Source as s;
ghost use Rattle.bicep_resolved.specs.View.{source_of, loop_of};
ghost use Rattle.bicep_found.specs.Found.{Found, Gives, mapped, both};
ghost use Rattle.bicep_names.specs.Parts.{properties_of};
ghost use Rattle.bicep_names.specs.Resolve.{resolved};
ghost use Rattle.bicep_names.specs.Scope.{scope};
ghost use Rattle.bicep_declared.specs.Declare as spec;
ghost use Rattle.bicep_declared.specs.View.{body_tree};

use crate::declared::DeclaredBody;
use bicep_found::Stop;
use bicep_found::join::pair;
use bicep_names::{Outputs, Symbols, resolve, resolve_members};
use bicep_resolved::{Property, Source, SourceLoop};
use bicep_tree::{Body, Expr, Loop, LoopNames, Object};
use std::alloc::Global;

// A body of these fields.
fn with_fields(at: usize, fields: Result<Vec<Property>, Stop>) -> Result<DeclaredBody, Stop>
    ensures { (f : Found PropertyTrees) → Gives properties_of fields f
        → Gives body_tree result (mapped (spec.plain_body at) f) }
{
    match fields {
        Ok(fields) => Ok(DeclaredBody {
            each: None,
            condition: None,
            at,
            fields,
        }),
        Err(stop) => Err(stop),
    }
}

// A body under a condition.
fn with_condition(
    at: usize,
    condition: Result<Source, Stop>,
    fields: Result<Vec<Property>, Stop>,
) -> Result<DeclaredBody, Stop>
    ensures { (f : Found SourceTree) (g : Found PropertyTrees) → Gives source_of condition f
        → Gives properties_of fields g → Gives body_tree result (mapped (spec.body_if at) (both f g)) }
{
    match pair(condition, fields) {
        Ok((condition, fields)) => Ok(DeclaredBody {
            each: None,
            condition: Some(condition),
            at,
            fields,
        }),
        Err(stop) => Err(stop),
    }
}

// The loop that begins at a place.
#[tactic(auto, using(bicep_resolved::proofs::ViewLemmas::structs))]
fn loop_over(at: usize, over: Source) -> SourceLoop
    ensures { loop_of result ≡ s.loop at (source_of over) }
{
    SourceLoop { at, over }
}

// A body of these parts that is repeated.
fn repeated(place: usize, at: usize, over: Source, fields: Vec<Property>) -> DeclaredBody
    ensures { body_tree result ≡ spec.body_each place at (source_of over, properties_of fields) }
{
    let each = loop_over(place, over);
    DeclaredBody {
        each: Some(each),
        condition: None,
        at,
        fields,
    }
}

// A body that is repeated.
fn with_loop(
    place: usize,
    at: usize,
    over: Result<Source, Stop>,
    fields: Result<Vec<Property>, Stop>,
) -> Result<DeclaredBody, Stop>
    ensures { (f : Found SourceTree) (g : Found PropertyTrees) → Gives source_of over f
        → Gives properties_of fields g → Gives body_tree result (mapped (spec.body_each place at) (both f g)) }
{
    match pair(over, fields) {
        Ok((over, fields)) => Ok(repeated(place, at, over, fields)),
        Err(stop) => Err(stop),
    }
}

// A body of these parts that is repeated under a condition.
fn repeated_if(place: usize, at: usize, over: Source, rest: (Source, Vec<Property>)) -> DeclaredBody
    ensures { body_tree result
        ≡ spec.body_each_if place at (source_of over, (source_of rest.0, properties_of rest.1)) }
{
    let (condition, fields) = rest;
    let each = loop_over(place, over);
    DeclaredBody {
        each: Some(each),
        condition: Some(condition),
        at,
        fields,
    }
}

// A body that is repeated under a condition.
fn with_both(
    place: usize,
    at: usize,
    over: Result<Source, Stop>,
    condition: Result<Source, Stop>,
    fields: Result<Vec<Property>, Stop>,
) -> Result<DeclaredBody, Stop>
    ensures { (f g : Found SourceTree) (h : Found PropertyTrees) → Gives source_of over f → Gives source_of condition g
        → Gives properties_of fields h
        → Gives body_tree result (mapped (spec.body_each_if place at) (both f (both g h))) }
{
    let rest = pair(condition, fields);
    match pair(over, rest) {
        Ok((over, rest)) => Ok(repeated_if(place, at, over, rest)),
        Err(stop) => Err(stop),
    }
}

// The fields of a body inside loops.
#[tactic(auto, using(bicep_tree::proofs::ViewLemmas::structs))]
fn fields_of<'a>(
    alloc: Global,
    symbols: &Symbols,
    outputs: &[Outputs],
    loops: &[&'a LoopNames],
    object: &'a Object,
) -> Result<Vec<Property>, Stop>
    ensures { Gives properties_of result (spec.fields_of
        (scope symbols.now outputs.now) (view.object_of object.now) (map (λ l. l.now) loops.now)) }
{
    resolve_members(alloc, symbols, outputs, loops, object.members.as_slice())
}

#[tactic(auto, using(bicep_tree::proofs::ViewLemmas::structs))]
fn object_at(object: &Object) -> usize
    ensures { result ≡ spec.object_at (view.object_of object.now) }
{
    object.at
}

fn plain_body(
    alloc: Global,
    symbols: &Symbols,
    outputs: &[Outputs],
    object: &Object,
) -> Result<DeclaredBody, Stop>
    ensures { Gives body_tree result (mapped (spec.plain_body (spec.object_at (view.object_of object.now)))
        (spec.fields_of (scope symbols.now outputs.now) (view.object_of object.now) [])) }
{
    let fields = fields_of(alloc, symbols, outputs, &[], object);
    with_fields(object_at(object), fields)
}

fn body_if(
    alloc: Global,
    symbols: &Symbols,
    outputs: &[Outputs],
    condition: &Expr,
    object: &Object,
) -> Result<DeclaredBody, Stop>
    ensures { Gives body_tree result (mapped (spec.body_if (spec.object_at (view.object_of object.now)))
        (both (resolved (scope symbols.now outputs.now) (tree_of condition.now) [])
        (spec.fields_of (scope symbols.now outputs.now) (view.object_of object.now) []))) }
{
    let condition = resolve(alloc, symbols, outputs, &[], condition);
    let fields = fields_of(alloc, symbols, outputs, &[], object);
    with_condition(object_at(object), condition, fields)
}

// What a loop runs over, which is outside the loop.
#[tactic(auto, using(bicep_tree::proofs::ViewLemmas::structs))]
fn over_of(
    alloc: Global,
    symbols: &Symbols,
    outputs: &[Outputs],
    each: &Loop,
) -> Result<Source, Stop>
    ensures { Gives source_of result (resolved (scope symbols.now outputs.now)
        (spec.loop_over (view.loop_of each.now)) []) }
{
    resolve(alloc, symbols, outputs, &[], &each.over)
}

#[tactic(auto, using(bicep_tree::proofs::ViewLemmas::structs))]
fn loop_at(each: &Loop) -> usize
    ensures { result ≡ spec.loop_at (view.loop_of each.now) }
{
    each.at
}

#[tactic(auto, using(bicep_tree::proofs::ViewLemmas::structs))]
fn loop_names(each: &Loop) -> &LoopNames
    ensures { result.now ≡ spec.loop_names (view.loop_of each.now) }
{
    &each.names
}

fn body_each(
    alloc: Global,
    symbols: &Symbols,
    outputs: &[Outputs],
    each: &Loop,
    object: &Object,
) -> Result<DeclaredBody, Stop>
    ensures { Gives body_tree result (mapped
        (spec.body_each (spec.loop_at (view.loop_of each.now)) (spec.object_at (view.object_of object.now)))
        (both (resolved (scope symbols.now outputs.now) (spec.loop_over (view.loop_of each.now)) [])
        (spec.fields_of (scope symbols.now outputs.now) (view.object_of object.now)
        (spec.loop_names (view.loop_of each.now) ∷ [])))) }
{
    let over = over_of(alloc, symbols, outputs, each);
    let fields = fields_of(alloc, symbols, outputs, &[loop_names(each)], object);
    with_loop(loop_at(each), object_at(object), over, fields)
}

fn body_each_if(
    alloc: Global,
    symbols: &Symbols,
    outputs: &[Outputs],
    each: &Loop,
    condition: &Expr,
    object: &Object,
) -> Result<DeclaredBody, Stop>
    ensures { Gives body_tree result (mapped
        (spec.body_each_if (spec.loop_at (view.loop_of each.now)) (spec.object_at (view.object_of object.now)))
        (both (resolved (scope symbols.now outputs.now) (spec.loop_over (view.loop_of each.now)) [])
        (both (resolved (scope symbols.now outputs.now) (tree_of condition.now)
        (spec.loop_names (view.loop_of each.now) ∷ []))
        (spec.fields_of (scope symbols.now outputs.now) (view.object_of object.now)
        (spec.loop_names (view.loop_of each.now) ∷ []))))) }
{
    let over = over_of(alloc, symbols, outputs, each);
    let condition = resolve(alloc, symbols, outputs, &[loop_names(each)], condition);
    let fields = fields_of(alloc, symbols, outputs, &[loop_names(each)], object);
    with_both(loop_at(each), object_at(object), over, condition, fields)
}

/// A body of a resource or a module.
#[tactic(auto, using(bicep_tree::proofs::ViewLemmas::enums))]
pub(crate) fn body_of(
    alloc: Global,
    symbols: &Symbols,
    outputs: &[Outputs],
    body: &Body,
) -> Result<DeclaredBody, Stop>
    ensures { Gives body_tree result (spec.body_of (scope symbols.now outputs.now) (view.body_of body.now)) }
{
    match body {
        Body::Plain(object) => plain_body(alloc, symbols, outputs, object),
        Body::If(_, condition, object) => body_if(alloc, symbols, outputs, condition, object),
        Body::Each(each, object) => body_each(alloc, symbols, outputs, each, object),
        Body::EachIf(each, _, condition, object) => {
            body_each_if(alloc, symbols, outputs, each, condition, object)
        }
    }
}
