// The values of expressions. The functions that evaluate parts call each other, as deep as the expression nests.
ghost use Rattle.std.specs.Prelude.{◌∷◌, List, map};
ghost use Rattle.arm_value.specs.Json.{Json};
ghost use Rattle.arm_value.specs.View.{json, member};
ghost use Rattle.deploy_cells.specs.Guarded.{Reads};
ghost use Rattle.bicep_meaning.specs.Around.{Frame};
ghost use Rattle.bicep_resolved.specs.View.{source_of, reach_of, value_of, piece_of, property_of};
ghost use Rattle.bicep_resolved.specs.View.{sources, pieces, properties, row_name};
ghost use Rattle.bicep_outcomes.specs.Outcomes.{all_json, all_members, all_texts};
ghost use Rattle.bicep_surroundings.specs.Sight.{Answers, IsInside, AreRuns};
ghost use Rattle.bicep_eval.specs.Values as spec;

use arm_env::stop::let_go;
use arm_functions::Row;
use arm_value::{Field, Text, Value};
use bicep_outcomes::accesses::{indexed, member};
use bicep_outcomes::calls::{called, is_coalesce};
use bicep_outcomes::joins::{add, capped, copied, only_truth, pair, truth, unless_null, whole};
use bicep_outcomes::literals::literal;
use bicep_outcomes::loops::{Turn, counted, element, run_at, within};
use bicep_outcomes::operators::{Reach as Wanted, operated, prefixed, reach_of};
use bicep_outcomes::parts::{array, hole, interpolated, object};
use bicep_outcomes::{Stop, parts};
use bicep_resolved::{Piece, Property, Reach, Source, SourceValue};
use bicep_surroundings::{Surroundings, field_of, named, output_of};
use bicep_tree::Operator;
use std::alloc::Global;

/// The value of an expression inside loops, of which the nearest is the first, or why there is none. It recurses as
/// deep as the expression nests.
#[cycle(evaluate)]
pub fn evaluate<K: Surroundings>(
    alloc: Global,
    around: &K,
    e: &Source,
    turns: &[Turn],
) -> Result<Value, Stop>
    ensures { Answers (K.sight around.now) turns.now json result
        (spec.value (K.sight around.now) (source_of e.now)) }
{
    capped(bare(alloc, around, e, turns))
}

// The value of an expression, also where it nests too deep.
#[cycle(evaluate)]
#[tactic(auto, using(bicep_resolved::proofs::ViewLemmas::enums))]
fn bare<K: Surroundings>(
    alloc: Global,
    around: &K,
    e: &Source,
    turns: &[Turn],
) -> Result<Value, Stop>
    ensures { Answers (K.sight around.now) turns.now json result
        (spec.bare (K.sight around.now) (source_of e.now)) }
{
    match e {
        Source::Name(_, meaning) => named(alloc, around, *meaning, turns),
        Source::Literal(_, value) => literal(alloc, value),
        Source::Interpolated(_, first, pieces) => {
            let texts = holes(alloc, around, pieces.as_slice(), turns);
            interpolated(alloc, first, texts)
        }
        Source::Object(_, properties) => {
            let fields = members(alloc, around, properties.as_slice(), turns);
            object(alloc, fields)
        }
        Source::Array(_, items) => array(values(alloc, around, items.as_slice(), turns)),
        Source::Call(_, row, args) => call(alloc, around, row, args.as_slice(), turns),
        Source::Instance(_) => Err(Stop::NoValue),
        Source::Field(reach, _, field) => {
            let element = inside(alloc, around, reach, turns);
            field_of(alloc, around, reach.target().number(), field, element)
        }
        Source::Output(reach, _, number) => {
            let element = inside(alloc, around, reach, turns);
            output_of(alloc, around, reach.target(), *number, element)
        }
        Source::Member(inner, selector, name) => {
            let value = evaluate(alloc, around, inner, turns);
            member(alloc, *selector, value, &name.text)
        }
        Source::Index(inner, indexing, index) => {
            let value = evaluate(alloc, around, inner, turns);
            let index = evaluate(alloc, around, index, turns);
            indexed(alloc, *indexing, pair(value, index))
        }
        Source::Prefix(_, prefix, inner) => {
            let value = evaluate(alloc, around, inner, turns);
            prefixed(*prefix, value)
        }
        Source::Binary(operator, left, right) => {
            let first = evaluate(alloc, around, left, turns);
            binary(alloc, around, first, *operator, right, turns)
        }
        Source::Conditional(condition, yes, no) => {
            match truth(evaluate(alloc, around, condition, turns)) {
                Ok(true) => evaluate(alloc, around, yes, turns),
                Ok(false) => evaluate(alloc, around, no, turns),
                Err(stop) => Err(stop),
            }
        }
    }
}

// The values of all of these, all of which are looked at.
#[cycle(evaluate)]
fn values<K: Surroundings>(
    alloc: Global,
    around: &K,
    items: &[Source],
    turns: &[Turn],
) -> Result<Vec<Value>, Stop>
    ensures { Answers (K.sight around.now) turns.now all_json result
        (spec.values (K.sight around.now) (sources (map source_of items.now))) }
{
    let mut all = Some(Vec::new(alloc));
    for item in items {
        let value = evaluate(alloc, around, item, turns);
        match add(all, value) {
            Ok(more) => all = more,
            Err(stop) => return Err(stop),
        }
    }
    whole(all)
}

// The printed value of a hole, and the characters after it.
#[cycle(evaluate)]
#[tactic(auto, using(bicep_resolved::proofs::ViewLemmas::structs))]
fn hole_of<K: Surroundings>(
    alloc: Global,
    around: &K,
    piece: &Piece,
    turns: &[Turn],
) -> Result<Text, Stop>
    ensures { Answers (K.sight around.now) turns.now (λ t. t) result
        (spec.hole (K.sight around.now) (piece_of piece.now)) }
{
    let value = evaluate(alloc, around, &piece.value, turns);
    hole(alloc, value, &piece.after)
}

#[cycle(evaluate)]
fn holes<K: Surroundings>(
    alloc: Global,
    around: &K,
    items: &[Piece],
    turns: &[Turn],
) -> Result<Vec<Text>, Stop>
    ensures { Answers (K.sight around.now) turns.now all_texts result
        (spec.texts (K.sight around.now) (pieces (map piece_of items.now))) }
{
    let mut all = Some(Vec::new(alloc));
    for item in items {
        let text = hole_of(alloc, around, item, turns);
        match add(all, text) {
            Ok(more) => all = more,
            Err(stop) => return Err(stop),
        }
    }
    whole(all)
}

// A member of an object.
#[cycle(evaluate)]
#[tactic(auto, using(bicep_resolved::proofs::ViewLemmas::structs))]
fn member_of<K: Surroundings>(
    alloc: Global,
    around: &K,
    property: &Property,
    turns: &[Turn],
) -> Result<Field, Stop>
    ensures { Answers (K.sight around.now) turns.now member result
        (spec.member (K.sight around.now) (property_of property.now)) }
{
    let value = evaluate_value(alloc, around, &property.value, turns);
    parts::member(alloc, &property.name, value)
}

#[cycle(evaluate)]
fn members<K: Surroundings>(
    alloc: Global,
    around: &K,
    items: &[Property],
    turns: &[Turn],
) -> Result<Vec<Field>, Stop>
    ensures { Answers (K.sight around.now) turns.now all_members result
        (spec.members (K.sight around.now) (properties (map property_of items.now))) }
{
    let mut all = Some(Vec::new(alloc));
    for item in items {
        let field = member_of(alloc, around, item, turns);
        match add(all, field) {
            Ok(more) => all = more,
            Err(stop) => return Err(stop),
        }
    }
    whole(all)
}

/// The value of a variable, an output or a member inside loops, of which the nearest is the first, or why there is
/// none. It recurses as deep as the value nests.
#[cycle(evaluate)]
#[tactic(auto, using(bicep_resolved::proofs::ViewLemmas::enums, bicep_resolved::proofs::ViewLemmas::structs))]
pub fn evaluate_value<K: Surroundings>(
    alloc: Global,
    around: &K,
    value: &SourceValue,
    turns: &[Turn],
) -> Result<Value, Stop>
    ensures { Answers (K.sight around.now) turns.now json result
        (spec.value_of (K.sight around.now) (value_of value.now)) }
{
    match value {
        SourceValue::Plain(e) => evaluate(alloc, around, e, turns),
        SourceValue::Each(each, body) => {
            let over = evaluate(alloc, around, &each.over, turns);
            capped(looped(alloc, around, over, body, turns))
        }
    }
}

// The array of the values of the body of a loop, by what is known of what it runs over.
#[cycle(evaluate)]
fn looped<K: Surroundings>(
    alloc: Global,
    around: &K,
    given: Result<Value, Stop>,
    body: &Source,
    turns: &[Turn],
) -> Result<Value, Stop>
    ensures { (xs : List Frame → Reads Json) → Answers (K.sight around.now) turns.now json given xs
        → Answers (K.sight around.now) turns.now json result
        (spec.each (K.sight around.now) xs (source_of body.now)) }
{
    match counted(given) {
        Ok((over, count)) => {
            let values = runs(alloc, around, body, &over, count, turns);
            let_go(over);
            array(values)
        }
        Err(stop) => Err(stop),
    }
}

// The values of the body of a loop in its runs.
#[cycle(evaluate)]
fn runs<K: Surroundings>(
    alloc: Global,
    around: &K,
    body: &Source,
    over: &Value,
    count: u32,
    turns: &[Turn],
) -> Result<Vec<Value>, Stop>
    ensures { AreRuns (K.sight around.now) turns.now result (source_of body.now) (json over.now) count }
{
    let mut all = Some(Vec::new(alloc));
    for index in 0..count {
        let value = run(alloc, around, body, run_at(alloc, over, index), turns);
        match add(all, value) {
            Ok(more) => all = more,
            Err(stop) => return Err(stop),
        }
    }
    whole(all)
}

// The value of the body of a loop in one run.
#[cycle(evaluate)]
fn run<K: Surroundings>(
    alloc: Global,
    around: &K,
    body: &Source,
    turn: Turn,
    turns: &[Turn],
) -> Result<Value, Stop>
    ensures { Answers (K.sight around.now) (turn ∷ turns.now) json result
        (spec.value (K.sight around.now) (source_of body.now)) }
{
    match within(alloc, turn, turns) {
        Ok(inner) => {
            let value = evaluate(alloc, around, body, inner.as_slice());
            let_go(inner);
            value
        }
        Err(stop) => Err(stop),
    }
}

// The call of a function.
#[cycle(evaluate)]
fn call<K: Surroundings>(
    alloc: Global,
    around: &K,
    row: &Row,
    args: &[Source],
    turns: &[Turn],
) -> Result<Value, Stop>
    ensures { Answers (K.sight around.now) turns.now json result
        (spec.call (K.sight around.now) (row_name row.now) (sources (map source_of args.now))) }
{
    if !is_coalesce(row.name) {
        let args = values(alloc, around, args, turns);
        return called(alloc, around.place(), row.name, args);
    }
    if args.is_empty() {
        return Err(Stop::NoValue);
    }
    first_there(alloc, around, args, turns)
}

// The first value that is not null.
#[cycle(evaluate)]
fn first_there<K: Surroundings>(
    alloc: Global,
    around: &K,
    args: &[Source],
    turns: &[Turn],
) -> Result<Value, Stop>
    ensures { Answers (K.sight around.now) turns.now json result
        (spec.first_there (K.sight around.now) (sources (map source_of args.now))) }
{
    for arg in args {
        match evaluate(alloc, around, arg, turns) {
            Ok(value) => match unless_null(value) {
                Some(value) => return Ok(value),
                None => {}
            },
            Err(stop) => return Err(stop),
        }
    }
    Ok(Value::Null)
}

// What an operator gives, by what is known of its first operand.
#[cycle(evaluate)]
fn binary<K: Surroundings>(
    alloc: Global,
    around: &K,
    first: Result<Value, Stop>,
    operator: Operator,
    right: &Source,
    turns: &[Turn],
) -> Result<Value, Stop>
    ensures { (x : List Frame → Reads Json) → Answers (K.sight around.now) turns.now json first x
        → Answers (K.sight around.now) turns.now json result
        (spec.binary (K.sight around.now) operator x (source_of right.now)) }
{
    match reach_of(operator) {
        Wanted::Coalesce => coalesced(alloc, around, first, right, turns),
        Wanted::Or => decided(alloc, around, first, right, false, turns),
        Wanted::And => decided(alloc, around, first, right, true, turns),
        Wanted::Both => {
            let second = evaluate(alloc, around, right, turns);
            operated(operator, pair(first, second))
        }
    }
}

// The second truth value where the first is `goes_on`, and else the first.
#[cycle(evaluate)]
fn decided<K: Surroundings>(
    alloc: Global,
    around: &K,
    given: Result<Value, Stop>,
    right: &Source,
    goes_on: bool,
    turns: &[Turn],
) -> Result<Value, Stop>
    ensures { (x : List Frame → Reads Json) → Answers (K.sight around.now) turns.now json given x
        → Answers (K.sight around.now) turns.now json result
        (spec.decided (K.sight around.now) goes_on x (source_of right.now)) }
{
    match truth(given) {
        Ok(first) => if first == goes_on {
            only_truth(evaluate(alloc, around, right, turns))
        } else {
            Ok(Value::Bool(first))
        },
        Err(stop) => Err(stop),
    }
}

// The first value, or the second where the first is null.
#[cycle(evaluate)]
fn coalesced<K: Surroundings>(
    alloc: Global,
    around: &K,
    given: Result<Value, Stop>,
    right: &Source,
    turns: &[Turn],
) -> Result<Value, Stop>
    ensures { (x : List Frame → Reads Json) → Answers (K.sight around.now) turns.now json given x
        → Answers (K.sight around.now) turns.now json result
        (spec.coalesced (K.sight around.now) x (source_of right.now)) }
{
    match given {
        Ok(value) => match unless_null(value) {
            Some(value) => Ok(value),
            None => evaluate(alloc, around, right, turns),
        },
        Err(stop) => Err(stop),
    }
}

// The loop around the declaration of a resource or a module, where one of its elements is used.
#[cycle(evaluate)]
#[tactic(auto, using(bicep_resolved::proofs::ViewLemmas::enums))]
fn inside<K: Surroundings>(alloc: Global, around: &K, reach: &Reach, turns: &[Turn]) -> Option<Turn>
    ensures { IsInside (K.sight around.now) turns.now (reach_of reach.now) result }
{
    match reach {
        Reach::Symbol(_, _) => None,
        Reach::Element(_, target, index) => {
            let items = copied(alloc, around.items(alloc, target.number()));
            let index = evaluate(alloc, around, index, turns);
            Some(element(alloc, items, index))
        }
    }
}
