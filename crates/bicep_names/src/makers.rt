// Expressions that are made of parts which are found.
ghost use Rattle.std.specs.Prelude.{◌≡◌, map, option_map, Some};
ghost use Rattle.bicep_tree.specs.Symbol.{label_text};
ghost use Rattle.bicep_tree.specs.Offset.{label_offset};
ghost use Rattle.bicep_resolved.specs.View.{source_of, value_of, piece_of, property_of, row_name};
ghost use Rattle.bicep_resolved.specs.Source as s;
ghost use Rattle.bicep_resolved.specs.Source.{SourceTree, SourceTrees, ValueTree, PieceTrees, PropertyTrees};
ghost use Rattle.bicep_found.specs.Found.{Found, Gives, found, mapped, then_found, both};
ghost use Rattle.bicep_names.specs.Parts.{sources_of, pieces_of, properties_of};
ghost use Rattle.bicep_names.specs.Resolve as spec;
ghost use Rattle.bicep_names.specs.Scope.{scope, meaning_of};

use crate::elements::indexed;
use crate::fields::accessed;
use crate::kind::Named;
use crate::loops::meaning_of;
use crate::outputs::Outputs;
use crate::symbols::Symbols;
use arm_functions::Row;
use arm_value::Text;
use bicep_found::Stop;
use bicep_found::join::{both, boxed, lacks, pair, three};
use bicep_resolved::{Piece, Property, Reach, Source, SourceLoop, SourceValue};
use bicep_tree::{Access, Function, Indexing, Label, Literal, LoopNames, Name, Operator, Prefix};
use std::alloc::Global;

#[tactic(auto, using(bicep_resolved::proofs::ViewLemmas::enums))]
fn source_at(at: usize, named: Named) -> Source
    ensures { source_of result ≡ spec.source_at at named }
{
    match named {
        Named::Value(meaning) => Source::Name(at, meaning),
        Named::Instance(target) => Source::Instance(Reach::Symbol(at, target)),
    }
}

/// What a name stands for.
pub(crate) fn named(symbols: &Symbols, loops: &[&LoopNames], name: &Name) -> Result<Source, Stop>
    ensures { Gives source_of result (spec.name_at name.now.at
        (meaning_of symbols.now (map (λ l. l.now) loops.now) name.now.text)) }
{
    match meaning_of(symbols, loops, &name.text) {
        Some(meaning) => Ok(source_at(name.at, meaning)),
        None => Err(Stop::Unknown(name.at)),
    }
}

/// A value that is one token.
#[tactic(auto, using(bicep_resolved::proofs::ViewLemmas::enums))]
pub(crate) fn literal(alloc: Global, at: usize, literal: &Literal) -> Result<Source, Stop>
    ensures { Gives source_of result (found (s.literal at literal.now)) }
{
    let literal = match literal {
        Literal::Number(number) => Literal::Number(*number),
        Literal::Text(text) => match text.copy(alloc) {
            Ok(text) => Literal::Text(text),
            Err(_) => return Err(Stop::OutOfMemory),
        },
        Literal::True => Literal::True,
        Literal::False => Literal::False,
        Literal::Null => Literal::Null,
    };
    Ok(Source::Literal(at, literal))
}

// A text with these holes.
#[tactic(auto, using(bicep_resolved::proofs::ViewLemmas::enums))]
fn text_with(alloc: Global, at: usize, first: &Text, pieces: Vec<Piece>) -> Result<Source, Stop>
    ensures { Gives source_of result (found (s.interpolated at first.now (pieces_of pieces))) }
{
    match first.copy(alloc) {
        Ok(first) => Ok(Source::Interpolated(at, first, pieces)),
        Err(_) => lacks(pieces, Stop::OutOfMemory),
    }
}

/// An interpolated text.
pub(crate) fn interpolated(
    alloc: Global,
    at: usize,
    first: &Text,
    pieces: Result<Vec<Piece>, Stop>,
) -> Result<Source, Stop>
    ensures { (f : Found PieceTrees) → Gives pieces_of pieces f
        → Gives source_of result (mapped (λ ps. s.interpolated at first.now ps) f) }
{
    match pieces {
        Ok(pieces) => text_with(alloc, at, first, pieces),
        Err(stop) => Err(stop),
    }
}

// A hole with this value.
#[tactic(auto, using(bicep_resolved::proofs::ViewLemmas::structs))]
fn piece_with(alloc: Global, value: Source, after: &Text) -> Result<Piece, Stop>
    ensures { Gives piece_of result (found (source_of value, after.now)) }
{
    match after.copy(alloc) {
        Ok(after) => Ok(Piece { value, after }),
        Err(_) => lacks(value, Stop::OutOfMemory),
    }
}

/// A hole of an interpolated text.
pub(crate) fn piece(alloc: Global, value: Result<Source, Stop>, after: &Text) -> Result<Piece, Stop>
    ensures { (f : Found SourceTree) → Gives source_of value f
        → Gives piece_of result (mapped (λ x. (x, after.now)) f) }
{
    match value {
        Ok(value) => piece_with(alloc, value, after),
        Err(stop) => Err(stop),
    }
}

/// An object.
pub(crate) fn object(at: usize, properties: Result<Vec<Property>, Stop>) -> Result<Source, Stop>
    ensures { (f : Found PropertyTrees) → Gives properties_of properties f
        → Gives source_of result (mapped (λ ps. s.object at ps) f) }
{
    match properties {
        Ok(properties) => Ok(Source::Object(at, properties)),
        Err(stop) => Err(stop),
    }
}

// A member with this value.
#[tactic(auto, using(bicep_resolved::proofs::ViewLemmas::structs))]
fn property_with(alloc: Global, label: &Label, value: SourceValue) -> Result<Option<Property>, Stop>
    ensures { Gives (option_map property_of) result
        (found (Some (label_offset label.now, label_text label.now, value_of value))) }
{
    match label.text().copy(alloc) {
        Ok(name) => {
            let at = label.at();
            Ok(Some(Property { at, name, value }))
        }
        Err(_) => lacks(value, Stop::OutOfMemory),
    }
}

/// A member of an object.
pub(crate) fn property(
    alloc: Global,
    label: &Label,
    value: Result<SourceValue, Stop>,
) -> Result<Option<Property>, Stop>
    ensures { (f : Found ValueTree) → Gives value_of value f → Gives (option_map property_of) result
        (mapped (λ x. Some (label_offset label.now, label_text label.now, x)) f) }
{
    match value {
        Ok(value) => property_with(alloc, label, value),
        Err(stop) => Err(stop),
    }
}

/// An array.
pub(crate) fn array(at: usize, items: Result<Vec<Source>, Stop>) -> Result<Source, Stop>
    ensures { (f : Found SourceTrees) → Gives sources_of items f
        → Gives source_of result (mapped (λ xs. s.array at xs) f) }
{
    match items {
        Ok(items) => Ok(Source::Array(at, items)),
        Err(stop) => Err(stop),
    }
}

/// The name of a function, without `sys.` and `az.`.
pub(crate) fn function_name(function: &Function) -> &Name
    ensures { result.now ≡ spec.function_name function.now }
{
    match function {
        Function::Plain(name) => name,
        Function::Qualified(_, _, name) => name,
    }
}

/// A call.
pub(crate) fn call(
    at: usize,
    row: Row,
    arguments: Result<Vec<Source>, Stop>,
) -> Result<Source, Stop>
    ensures { (f : Found SourceTrees) → Gives sources_of arguments f
        → Gives source_of result (mapped (λ xs. s.call at (row_name row) xs) f) }
{
    match arguments {
        Ok(arguments) => Ok(Source::Call(at, row, arguments)),
        Err(stop) => Err(stop),
    }
}

/// A part of a value by its name.
pub(crate) fn access(
    alloc: Global,
    symbols: &Symbols,
    outputs: &[Outputs],
    whole: Result<Source, Stop>,
    access: Access,
    name: &Name,
) -> Result<Source, Stop>
    ensures { (f : Found SourceTree) → Gives source_of whole f
        → Gives source_of result
        (then_found (λ x. spec.accessed (scope symbols.now outputs.now) x access name.now) f) }
{
    match whole {
        Ok(whole) => accessed(alloc, symbols, outputs, whole, access, name),
        Err(stop) => Err(stop),
    }
}

/// A part of a value by an index.
pub(crate) fn index(
    alloc: Global,
    whole: Result<Source, Stop>,
    indexing: Indexing,
    index: Result<Source, Stop>,
) -> Result<Source, Stop>
    ensures { (f g : Found SourceTree) → Gives source_of whole f → Gives source_of index g
        → Gives source_of result (mapped (λ p. spec.indexed p.0 indexing p.1) (both f g)) }
{
    match pair(whole, index) {
        Ok((whole, index)) => indexed(alloc, whole, indexing, index),
        Err(stop) => Err(stop),
    }
}

/// An operator before its operand.
pub(crate) fn prefixed(
    alloc: Global,
    at: usize,
    prefix: Prefix,
    operand: Result<Source, Stop>,
) -> Result<Source, Stop>
    ensures { (f : Found SourceTree) → Gives source_of operand f
        → Gives source_of result (mapped (λ x. s.prefixed at prefix x) f) }
{
    match boxed(alloc, operand) {
        Ok(operand) => Ok(Source::Prefix(at, prefix, operand)),
        Err(stop) => Err(stop),
    }
}

/// An operator between its operands.
pub(crate) fn binary(
    alloc: Global,
    operator: Operator,
    first: Result<Source, Stop>,
    second: Result<Source, Stop>,
) -> Result<Source, Stop>
    ensures { (f g : Found SourceTree) → Gives source_of first f → Gives source_of second g
        → Gives source_of result (mapped (λ p. s.binary operator p.0 p.1) (both f g)) }
{
    match both(alloc, first, second) {
        Ok((first, second)) => Ok(Source::Binary(operator, first, second)),
        Err(stop) => Err(stop),
    }
}

/// `c ? a : b`
pub(crate) fn conditional(
    alloc: Global,
    condition: Result<Source, Stop>,
    yes: Result<Source, Stop>,
    no: Result<Source, Stop>,
) -> Result<Source, Stop>
    ensures { (f g h : Found SourceTree) → Gives source_of condition f → Gives source_of yes g → Gives source_of no h
        → Gives source_of result (mapped (λ p. s.conditional p.0 p.1.0 p.1.1) (both f (both g h))) }
{
    match three(alloc, condition, yes, no) {
        Ok((condition, yes, no)) => Ok(Source::Conditional(condition, yes, no)),
        Err(stop) => Err(stop),
    }
}

/// A value that is an expression.
pub(crate) fn plain(value: Result<Source, Stop>) -> Result<SourceValue, Stop>
    ensures { (f : Found SourceTree) → Gives source_of value f
        → Gives value_of result (mapped (λ x. s.plain x) f) }
{
    match value {
        Ok(value) => Ok(SourceValue::Plain(value)),
        Err(stop) => Err(stop),
    }
}

// A for-expression of these parts.
#[tactic(auto, using(bicep_resolved::proofs::ViewLemmas::enums, bicep_resolved::proofs::ViewLemmas::structs))]
fn each_with(at: usize, over: Source, body: Source) -> SourceValue
    ensures { value_of result ≡ s.each (s.loop at (source_of over)) (source_of body) }
{
    SourceValue::Each(SourceLoop { at, over }, body)
}

/// A for-expression.
pub(crate) fn each(
    at: usize,
    over: Result<Source, Stop>,
    body: Result<Source, Stop>,
) -> Result<SourceValue, Stop>
    ensures { (f g : Found SourceTree) → Gives source_of over f → Gives source_of body g
        → Gives value_of result (mapped (λ p. s.each (s.loop at p.0) p.1) (both f g)) }
{
    match pair(over, body) {
        Ok((over, body)) => Ok(each_with(at, over, body)),
        Err(stop) => Err(stop),
    }
}
