// The symbols that an expression mentions.
ghost use Rattle.std.specs.Prelude.{◌≡◌, ◌++◌, ◌∷◌, [], map, OnOk};
ghost use Rattle.bicep_resolved.specs.View as view;
ghost use Rattle.bicep_resolved.specs.View.{sources, pieces, properties};
ghost use Rattle.bicep_circles.specs.Mentions as spec;

use arm_value::OutOfMemory;
use bicep_resolved::{Meaning, Piece, Property, Reach, Source, SourceLoop, SourceValue};

// Adds a number.
fn push(out: &mut Vec<usize>, number: usize) -> Result<(), OutOfMemory>
    ensures { OnOk result (out.new.items ≡ out.old.items ++ number ∷ []) }
{
    out.push(number)?;
    Ok(())
}

fn add_meaning(out: &mut Vec<usize>, meaning: Meaning) -> Result<(), OutOfMemory>
    ensures { OnOk result (out.new.items ≡ out.old.items ++ spec.name_mentions meaning) }
{
    match meaning {
        Meaning::Parameter(number) | Meaning::Variable(number) => push(out, number),
        Meaning::Item(_) | Meaning::Index(_) => Ok(()),
    }
}

/// Adds the numbers of the symbols that an expression mentions.
#[cycle(mentions)]
#[tactic(auto, using(bicep_resolved::proofs::ViewLemmas::enums, crate::proofs::Appends::appends))]
pub(crate) fn add_mentions(out: &mut Vec<usize>, e: &Source) -> Result<(), OutOfMemory>
    ensures { OnOk result (out.new.items ≡ out.old.items ++ spec.mentions (view.source_of e.now)) }
{
    match e {
        Source::Name(_, meaning) => add_meaning(out, *meaning),
        Source::Literal(_, _) => Ok(()),
        Source::Interpolated(_, _, parts) => add_pieces(out, parts.as_slice()),
        Source::Object(_, members) => add_properties(out, members.as_slice()),
        Source::Array(_, items) => add_all(out, items.as_slice()),
        Source::Call(_, _, arguments) => add_all(out, arguments.as_slice()),
        Source::Instance(reach) => add_reach(out, reach),
        Source::Field(reach, _, _) => add_reach(out, reach),
        Source::Output(reach, _, _) => add_reach(out, reach),
        Source::Member(whole, _, _) => add_mentions(out, whole),
        Source::Index(whole, _, index) => {
            add_mentions(out, whole)?;
            add_mentions(out, index)
        }
        Source::Prefix(_, _, operand) => add_mentions(out, operand),
        Source::Binary(_, first, second) => {
            add_mentions(out, first)?;
            add_mentions(out, second)
        }
        Source::Conditional(condition, yes, no) => {
            add_mentions(out, condition)?;
            add_mentions(out, yes)?;
            add_mentions(out, no)
        }
    }
}

#[cycle(mentions)]
#[tactic(auto, using(bicep_resolved::proofs::ViewLemmas::enums, crate::proofs::Appends::appends))]
fn add_reach(out: &mut Vec<usize>, reach: &Reach) -> Result<(), OutOfMemory>
    ensures { OnOk result (out.new.items ≡ out.old.items ++ spec.reach_mentions (view.reach_of reach.now)) }
{
    match reach {
        Reach::Symbol(_, target) => push(out, target.number()),
        Reach::Element(_, target, index) => {
            push(out, target.number())?;
            add_mentions(out, index)
        }
    }
}

#[cycle(mentions)]
fn add_all(out: &mut Vec<usize>, es: &[Source]) -> Result<(), OutOfMemory>
    ensures { OnOk result (out.new.items ≡ out.old.items ++ spec.all_mentions (sources (map view.source_of es.now))) }
{
    for e in es {
        add_mentions(out, e)?;
    }
    Ok(())
}

#[cycle(mentions)]
fn add_pieces(out: &mut Vec<usize>, parts: &[Piece]) -> Result<(), OutOfMemory>
    ensures { OnOk result (out.new.items ≡ out.old.items
        ++ spec.piece_mentions (pieces (map view.piece_of parts.now))) }
{
    for part in parts {
        add_piece(out, part)?;
    }
    Ok(())
}

#[cycle(mentions)]
#[tactic(auto, using(bicep_resolved::proofs::ViewLemmas::structs))]
fn add_piece(out: &mut Vec<usize>, part: &Piece) -> Result<(), OutOfMemory>
    ensures { OnOk result (out.new.items ≡ out.old.items ++ spec.mentions (view.piece_of part.now).0) }
{
    add_mentions(out, &part.value)
}

/// Adds the numbers of the symbols that properties mention.
#[cycle(mentions)]
pub(crate) fn add_properties(out: &mut Vec<usize>, members: &[Property]) -> Result<(), OutOfMemory>
    ensures { OnOk result (out.new.items ≡ out.old.items
        ++ spec.property_mentions (properties (map view.property_of members.now))) }
{
    for member in members {
        add_property(out, member)?;
    }
    Ok(())
}

#[cycle(mentions)]
#[tactic(auto, using(bicep_resolved::proofs::ViewLemmas::structs))]
fn add_property(out: &mut Vec<usize>, member: &Property) -> Result<(), OutOfMemory>
    ensures { OnOk result (out.new.items ≡ out.old.items ++ spec.value_mentions (view.property_of member.now).2) }
{
    add_value(out, &member.value)
}

/// Adds the numbers of the symbols that a value mentions.
#[cycle(mentions)]
#[tactic(auto, using(bicep_resolved::proofs::ViewLemmas::enums, crate::proofs::Appends::appends))]
pub(crate) fn add_value(out: &mut Vec<usize>, value: &SourceValue) -> Result<(), OutOfMemory>
    ensures { OnOk result (out.new.items ≡ out.old.items ++ spec.value_mentions (view.value_of value.now)) }
{
    match value {
        SourceValue::Plain(e) => add_mentions(out, e),
        SourceValue::Each(each, body) => {
            add_loop(out, each)?;
            add_mentions(out, body)
        }
    }
}

/// Adds the numbers of the symbols that a loop runs over.
#[cycle(mentions)]
#[tactic(auto, using(bicep_resolved::proofs::ViewLemmas::structs))]
pub(crate) fn add_loop(out: &mut Vec<usize>, each: &SourceLoop) -> Result<(), OutOfMemory>
    ensures { OnOk result (out.new.items ≡ out.old.items ++ spec.loop_mentions (view.loop_of each.now)) }
{
    add_mentions(out, &each.over)
}
