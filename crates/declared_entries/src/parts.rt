//! The parts of the name in the id of a resource.
ghost use Rattle.std.specs.Prelude.{◌≡◌, ◌∷◌, [], ℕ, Some, option_map, IfOk};
ghost use Rattle.arm_expr.specs.Tree.{Tree};
ghost use Rattle.bicep_resolved.specs.Source.{plain, literal as literal_tree};
ghost use Rattle.bicep_resolved.specs.View.{source_of, value_of};
ghost use Rattle.bicep_declared.specs.View.{declared_tree};
ghost use Rattle.bicep_meaning.specs.Files.{type_of, parent};
ghost use Rattle.declaration_laws.specs.Sound.{IsSound};
ghost use Rattle.emitted_declarations.specs.Declared as spec;
ghost use Rattle.emission_laws.specs.Holes.{holes};
ghost use Rattle.kept_expressions.specs.Kept.{IsKeptHoles, AreKeptHoles};
ghost use Rattle.kept_parts.specs.Pieces.{literal_text};
ghost use Rattle.declared_table.specs.Seen.{file_in, files_in, emission_in};
ghost use Rattle.declared_entries.specs.Heads.{HasParent};
ghost use Rattle.declared_entries.specs.Parents.{parent_of as parent_tree};

use crate::parents::{Up, name_field};
use crate::reaching::{parts_in, reached};
use arm_ids::segments;
use arm_value::{OutOfMemory, Text};
use bicep_declared::Declared;
use bicep_resolved::{Source, SourceValue};
use bicep_tree::Literal;
use declared_table::Table;
use emitted_parts::with;
use kept_expressions::KeptHoles;
use kept_parts::{copied_holes, no_frame, parts_of};
use std::alloc::{AllocError, Global};

fn text_of(literal: &Literal) -> Option<&Text>
    ensures { (at : ℕ) → literal_text (Some (plain (literal_tree at literal.now))) ≡ option_map (λ t. t.now) result }
{
    match literal {
        Literal::Text(text) => Some(text),
        Literal::Number(_) | Literal::True | Literal::False | Literal::Null => None,
    }
}

#[tactic(auto, using(bicep_resolved::proofs::ViewLemmas::enums))]
fn literal_in(source: &Source) -> Option<&Text>
    ensures { literal_text (Some (plain (source_of source.now))) ≡ option_map (λ t. t.now) result }
{
    match source {
        Source::Literal(_, literal) => text_of(literal),
        Source::Name(..)
        | Source::Interpolated(..)
        | Source::Object(..)
        | Source::Array(..)
        | Source::Call(..)
        | Source::Instance(..)
        | Source::Field(..)
        | Source::Output(..)
        | Source::Member(..)
        | Source::Index(..)
        | Source::Prefix(..)
        | Source::Binary(..)
        | Source::Conditional(..) => None,
    }
}

#[tactic(auto, using(bicep_resolved::proofs::ViewLemmas::enums))]
fn literal_value(value: &SourceValue) -> Option<&Text>
    ensures { literal_text (Some (value_of value.now)) ≡ option_map (λ t. t.now) result }
{
    match value {
        SourceValue::Plain(source) => literal_in(source),
        SourceValue::Each(_, _) => None,
    }
}

// The text of a literal.
fn literal_of(value: Option<&SourceValue>) -> Option<&Text>
    ensures { literal_text (option_map (λ v. value_of v.now) value.entry) ≡ option_map (λ t. t.now) result }
{
    match value {
        Some(value) => literal_value(value),
        None => None,
    }
}

// How many parts the name has in the id of a type. There is no memory for a type of 2^32 segments or more.
fn number_of_parts(alloc: Global, kind: &Text) -> Result<u32, OutOfMemory>
    ensures { IfOk result (λ n. n ≡ spec.number_of_parts kind.now) }
{
    let segments = segments(alloc, kind.as_str())?;
    match u32::try_from(segments.as_slice().len().saturating_sub(1)) {
        Ok(count) => Ok(count),
        Err(_) => Err(AllocError),
    }
}

// The parts of a resource without a parent: those of its name.
fn own_parts(
    alloc: Global,
    table: &Table,
    number: usize,
    value: Option<&SourceValue>,
    own: &KeptHoles,
) -> Result<Vec<KeptHoles>, OutOfMemory>
    ensures { (a : Tree) → IsKeptHoles a own.now → IfOk result (λ ps. AreKeptHoles
        (spec.parts_of (option_map (λ v. value_of v.now) value.entry) a
        (spec.number_of_parts (type_of (file_in table.now) number).kind)) ps.items) }
{
    let kind = table.kind_of(alloc, number)?;
    let count = number_of_parts(alloc, &kind)?;
    parts_of(alloc, literal_of(value), own, count)
}

// The parts of a resource: those of its parent and its own name.
fn resource_parts(
    alloc: Global,
    table: &Table,
    number: usize,
    up: Up,
    value: Option<&SourceValue>,
    own: &KeptHoles,
) -> Result<Vec<KeptHoles>, OutOfMemory>
    requires sound { IsSound (file_in table.now) }
    requires parent { HasParent (parent_tree up) }
    ensures { (a : Tree) → IsKeptHoles a own.now → IfOk result (λ ps. AreKeptHoles
        (spec.parts_by (file_in table.now) (files_in table.now) (emission_in table.now) (parent_tree up.entry)
        (option_map (λ v. value_of v.now) value.entry)
        (spec.number_of_parts (type_of (file_in table.now) number).kind) a (holes ∷ [])) ps.items) }
{
    match up {
        Up::Nothing => own_parts(alloc, table, number, value, own),
        Up::Inside(around) => {
            let parts = parts_in(alloc, table, around, no_frame(alloc));
            with(parts, copied_holes(alloc, own))
        }
        Up::Below(reach) => {
            let parent = reach.target().number();
            let parts = parts_in(alloc, table, parent, reached(alloc, table, reach));
            with(parts, copied_holes(alloc, own))
        }
    }
}

/// The parts of the name in the id of a resource, of its own name; any other declaration has none.
pub(crate) fn parts(
    alloc: Global,
    table: &Table,
    number: usize,
    up: Up,
    declared: Option<&Declared>,
    own: &KeptHoles,
) -> Result<Vec<KeptHoles>, OutOfMemory>
    requires sound { IsSound (file_in table.now) }
    requires parent { parent_tree up ≡ parent (file_in table.now) number }
    ensures { IsKeptHoles (spec.name_of (file_in table.now) (files_in table.now) (emission_in table.now) number
        (holes ∷ [])) own.now
        → IfOk result (λ ps. AreKeptHoles (spec.parts_at (file_in table.now) (files_in table.now)
        (emission_in table.now) number (option_map (λ d. declared_tree d.now) declared.entry) (holes ∷ [])) ps.items) }
{
    match declared {
        Some(Declared::Resource(_, _, _, body)) => {
            let value = name_field(body.fields.as_slice());
            resource_parts(alloc, table, number, up, value, own)
        }
        Some(
            Declared::Parameter(_, _)
            | Declared::ParameterWith(_, _, _)
            | Declared::Variable(_, _)
            | Declared::Module(_, _),
        )
        | None => Ok(Vec::new(alloc)),
    }
}
