// Names of expressions, found.
ghost use Rattle.std.specs.Prelude.{◌≡◌, map, option_map};
ghost use Rattle.bicep_tree.specs.Tree as tree;
ghost use Rattle.bicep_tree.specs.View as view;
ghost use Rattle.bicep_tree.specs.View.{tree_of};
ghost use Rattle.bicep_resolved.specs.View.{source_of, value_of, piece_of, property_of};
ghost use Rattle.bicep_found.specs.Found.{Gives};
ghost use Rattle.bicep_names.specs.Parts.{sources_of, pieces_of, properties_of, resolved_hole, resolved_member};
ghost use Rattle.bicep_names.specs.Resolve as spec;
ghost use Rattle.bicep_names.specs.Scope.{scope};

use crate::functions::function_named;
use crate::loops::within;
use crate::makers::{
    access, array, binary, call, conditional, each, function_name, index, interpolated, literal,
    named, object, piece, plain, prefixed, property,
};
use crate::outputs::Outputs;
use crate::symbols::Symbols;
use bicep_found::Stop;
use bicep_found::join::{lacks, push, push_some};
use bicep_resolved::{Piece, Property, Source, SourceValue};
use bicep_tree::{Expr, Function, Hole, LoopNames, Member, Object, Value};
use std::alloc::Global;

/// What an expression stands for inside loops, of which the nearest is the first, or its first name that means nothing.
/// `outputs` has the outputs of each file of the program. It recurses as deep as the expression nests.
#[cycle(resolve)]
#[tactic(auto, using(bicep_tree::proofs::ViewLemmas::enums))]
pub fn resolve<'a>(
    alloc: Global,
    symbols: &Symbols,
    outputs: &[Outputs],
    loops: &[&'a LoopNames],
    e: &'a Expr,
) -> Result<Source, Stop>
    ensures { Gives source_of result
        (spec.resolved (scope symbols.now outputs.now) (tree_of e.now) (map (λ l. l.now) loops.now)) }
{
    match e {
        Expr::Name(name) => named(symbols, loops, name),
        Expr::Literal(at, value) => literal(alloc, *at, value),
        Expr::Interpolated(at, first, holes) => {
            let pieces = resolve_holes(alloc, symbols, outputs, loops, holes.as_slice());
            interpolated(alloc, *at, first, pieces)
        }
        Expr::Object(inner) => resolve_object(alloc, symbols, outputs, loops, inner),
        Expr::Array(at, items) => {
            let items = resolve_all(alloc, symbols, outputs, loops, items.as_slice());
            array(*at, items)
        }
        Expr::Parentheses(_, inner) => resolve(alloc, symbols, outputs, loops, inner),
        Expr::Call(function, arguments) => {
            resolve_call(
                alloc,
                symbols,
                outputs,
                loops,
                function,
                arguments.as_slice(),
            )
        }
        Expr::Access(whole, how, name) => {
            let whole = resolve(alloc, symbols, outputs, loops, whole);
            access(alloc, symbols, outputs, whole, *how, name)
        }
        Expr::Index(whole, indexing, at) => {
            let whole = resolve(alloc, symbols, outputs, loops, whole);
            let at = resolve(alloc, symbols, outputs, loops, at);
            index(alloc, whole, *indexing, at)
        }
        Expr::NotNull(inner) => resolve(alloc, symbols, outputs, loops, inner),
        Expr::Prefix(at, prefix, operand) => {
            let operand = resolve(alloc, symbols, outputs, loops, operand);
            prefixed(alloc, *at, *prefix, operand)
        }
        Expr::Binary(operator, first, second) => {
            let first = resolve(alloc, symbols, outputs, loops, first);
            let second = resolve(alloc, symbols, outputs, loops, second);
            binary(alloc, *operator, first, second)
        }
        Expr::Conditional(condition, yes, no) => {
            let condition = resolve(alloc, symbols, outputs, loops, condition);
            let yes = resolve(alloc, symbols, outputs, loops, yes);
            let no = resolve(alloc, symbols, outputs, loops, no);
            conditional(alloc, condition, yes, no)
        }
    }
}

// A call of a function.
#[cycle(resolve)]
fn resolve_call<'a>(
    alloc: Global,
    symbols: &Symbols,
    outputs: &[Outputs],
    loops: &[&'a LoopNames],
    function: &Function,
    arguments: &'a [Expr],
) -> Result<Source, Stop>
    ensures { Gives source_of result (spec.called function.now (spec.resolved_all
        (scope symbols.now outputs.now) (tree.trees (map tree_of arguments.now)) (map (λ l. l.now) loops.now))) }
{
    let name = function_name(function);
    match function_named(&name.text) {
        Some(row) => {
            let arguments = resolve_all(alloc, symbols, outputs, loops, arguments);
            call(function.at(), row, arguments)
        }
        None => Err(Stop::Unknown(name.at)),
    }
}

// The items of an array, or the arguments of a call.
#[cycle(resolve)]
fn resolve_all<'a>(
    alloc: Global,
    symbols: &Symbols,
    outputs: &[Outputs],
    loops: &[&'a LoopNames],
    es: &'a [Expr],
) -> Result<Vec<Source>, Stop>
    ensures { Gives sources_of result (spec.resolved_all
        (scope symbols.now outputs.now) (tree.trees (map tree_of es.now)) (map (λ l. l.now) loops.now)) }
{
    let mut found = Vec::new(alloc);
    for e in es {
        let part = resolve(alloc, symbols, outputs, loops, e);
        match push(&mut found, part) {
            Ok(()) => {}
            Err(stop) => return lacks(found, stop),
        }
    }
    Ok(found)
}

// The holes of an interpolated text.
#[cycle(resolve)]
fn resolve_holes<'a>(
    alloc: Global,
    symbols: &Symbols,
    outputs: &[Outputs],
    loops: &[&'a LoopNames],
    holes: &'a [Hole],
) -> Result<Vec<Piece>, Stop>
    ensures { Gives pieces_of result (spec.resolved_holes
        (scope symbols.now outputs.now) (tree.holes (map view.hole_of holes.now)) (map (λ l. l.now) loops.now)) }
{
    let mut found = Vec::new(alloc);
    for hole in holes {
        let part = resolve_hole(alloc, symbols, outputs, loops, hole);
        match push(&mut found, part) {
            Ok(()) => {}
            Err(stop) => return lacks(found, stop),
        }
    }
    Ok(found)
}

// A hole of an interpolated text.
#[cycle(resolve)]
#[tactic(auto, using(bicep_tree::proofs::ViewLemmas::structs))]
fn resolve_hole<'a>(
    alloc: Global,
    symbols: &Symbols,
    outputs: &[Outputs],
    loops: &[&'a LoopNames],
    hole: &'a Hole,
) -> Result<Piece, Stop>
    ensures { Gives piece_of result (resolved_hole
        (scope symbols.now outputs.now) (view.hole_of hole.now) (map (λ l. l.now) loops.now)) }
{
    let value = resolve(alloc, symbols, outputs, loops, &hole.value);
    piece(alloc, value, &hole.after)
}

/// The object as an expression. Resources that are written in it are left out.
#[cycle(resolve)]
#[tactic(auto, using(bicep_tree::proofs::ViewLemmas::structs))]
fn resolve_object<'a>(
    alloc: Global,
    symbols: &Symbols,
    outputs: &[Outputs],
    loops: &[&'a LoopNames],
    inner: &'a Object,
) -> Result<Source, Stop>
    ensures { Gives source_of result (spec.resolved_object
        (scope symbols.now outputs.now) (view.object_of inner.now) (map (λ l. l.now) loops.now)) }
{
    let properties = resolve_members(alloc, symbols, outputs, loops, inner.members.as_slice());
    object(inner.at, properties)
}

/// The properties among the members of an object.
#[cycle(resolve)]
pub fn resolve_members<'a>(
    alloc: Global,
    symbols: &Symbols,
    outputs: &[Outputs],
    loops: &[&'a LoopNames],
    members: &'a [Member],
) -> Result<Vec<Property>, Stop>
    ensures { Gives properties_of result (spec.resolved_members
        (scope symbols.now outputs.now) (tree.members (map view.member_of members.now)) (map (λ l. l.now) loops.now)) }
{
    let mut found = Vec::new(alloc);
    for member in members {
        let part = resolve_member(alloc, symbols, outputs, loops, member);
        match push_some(&mut found, part) {
            Ok(()) => {}
            Err(stop) => return lacks(found, stop),
        }
    }
    Ok(found)
}

// The property that a member is, if it is one.
#[cycle(resolve)]
#[tactic(auto, using(bicep_tree::proofs::ViewLemmas::enums))]
fn resolve_member<'a>(
    alloc: Global,
    symbols: &Symbols,
    outputs: &[Outputs],
    loops: &[&'a LoopNames],
    member: &'a Member,
) -> Result<Option<Property>, Stop>
    ensures { Gives (option_map property_of) result (resolved_member
        (scope symbols.now outputs.now) (view.member_of member.now) (map (λ l. l.now) loops.now)) }
{
    match member {
        Member::Property(label, value) => {
            let value = resolve_value(alloc, symbols, outputs, loops, value);
            property(alloc, label, value)
        }
        Member::Child(_, _) => Ok(None),
    }
}

/// The value of a variable, an output or a property.
#[cycle(resolve)]
#[tactic(auto, using(bicep_tree::proofs::ViewLemmas::enums, bicep_tree::proofs::ViewLemmas::structs))]
pub fn resolve_value<'a>(
    alloc: Global,
    symbols: &Symbols,
    outputs: &[Outputs],
    loops: &[&'a LoopNames],
    value: &'a Value,
) -> Result<SourceValue, Stop>
    ensures { Gives value_of result (spec.resolved_value
        (scope symbols.now outputs.now) (view.value_of value.now) (map (λ l. l.now) loops.now)) }
{
    match value {
        Value::Plain(e) => {
            let value = resolve(alloc, symbols, outputs, loops, e);
            plain(value)
        }
        Value::Each(around, body) => {
            let inner = within(alloc, &around.names, loops)?;
            let over = resolve(alloc, symbols, outputs, loops, &around.over);
            let body = resolve(alloc, symbols, outputs, inner.as_slice(), body);
            each(around.at, over, body)
        }
    }
}
