//! The value of a variable, an output or an argument.
ghost use Rattle.std.specs.Prelude.{IfOk, option_map};
ghost use Rattle.bicep_resolved.specs.View.{value_of};
ghost use Rattle.declaration_laws.specs.Sound.{IsSound};
ghost use Rattle.filled_tables.specs.Seen.{file_in};
ghost use Rattle.emitted_expressions.specs.Sight.{frames_of};
ghost use Rattle.emitted_files.specs.Values.{IsContent};
ghost use Rattle.tree_building.specs.Templates.{TemplateValue};
ghost use Rattle.tree_building.specs.Written.{ValueIsWithin};
ghost use Rattle.filled_tables.specs.Filled.{IsFilled, emission_sight};
ghost use Rattle.measured_trees.specs.Extremes.{value_extremes};
ghost use Rattle.measured_trees.specs.Measures.{Takes};
ghost use Rattle.tree_building.specs.Built.{Matches};
ghost use Rattle.tree_building.specs.Sight as spec;
ghost use Rattle.emitted_values.specs.Buildable.{MayBeBuilt};

use crate::laws::{tables_give_values, values_are_small};
use crate::passes::{made_value, value_measure};
use arm_value::{OutOfMemory, Text, Value};
use bicep_resolved::SourceValue;
use emitted_expressions::Turn;
use filled_tables::Table;
use measured_expressions::Span;
use measured_trees::Measure;
use std::alloc::Global;
use template_parts::Content;
use tree_building::{Looped, Written};

// The loop of a count and an input.
fn looped_content(looped: Looped) -> Content
    ensures { (v : TemplateValue) → Matches v (Written.Each looped) → ValueIsWithin v → IsContent v result }
{
    let Looped { count, input } = looped;
    Content::Copy(Value::Text(count), input)
}

// A value or a loop, as a template has it.
fn content_of(written: Written) -> Content
    ensures { (v : TemplateValue) → Matches v written → ValueIsWithin v → IsContent v result }
{
    match written {
        Written::Tree(value) => Content::Value(value),
        Written::Each(looped) => looped_content(looped),
    }
}

/// What a value becomes in the template, inside loops, of which the nearest is the first, with a table of all
/// declarations of the file. A loop has the given name; that of an output has none. The value is within the limits of
/// templates.
///
/// # Errors
///
/// `OutOfMemory`.
pub fn content(
    alloc: Global,
    table: &Table,
    name: Option<&Text>,
    value: &SourceValue,
    turns: &[Turn],
) -> Result<Content, OutOfMemory>
    requires filled { IsFilled table.now }
    requires sound { IsSound (file_in table.now) }
    requires within { MayBeBuilt (spec.value (emission_sight table.now) (option_map (λ t. t.now) name)
        (value_of value.now) (frames_of turns.now)) }
    ensures { IfOk result (IsContent (spec.value (emission_sight table.now) (option_map (λ t. t.now) name.entry)
        (value_of value.now) (frames_of turns.now))) }
{
    tables_give_values();
    values_are_small();
    match made_value(alloc, table, name, value, turns) {
        Ok(written) => Ok(content_of(written)),
        Err(error) => Err(error),
    }
}

/// How much of the limits such a value takes, inside loops of these extents.
///
/// # Errors
///
/// `OutOfMemory`.
pub fn measured_content(
    alloc: Global,
    table: &Table,
    name: Option<&Text>,
    value: &SourceValue,
    spans: &[Span],
) -> Result<Measure, OutOfMemory>
    requires filled { IsFilled table.now }
    requires sound { IsSound (file_in table.now) }
    ensures { Takes spans.now result (λ fs. value_extremes (spec.value (emission_sight table.now)
        (option_map (λ t. t.now) name.entry) (value_of value.now) fs)) }
{
    tables_give_values();
    value_measure(alloc, table, name, value, spans)
}
