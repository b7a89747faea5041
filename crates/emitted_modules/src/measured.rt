//! How much of the limits of templates modules take.
ghost use Rattle.std.specs.Prelude.{map, IfOk};
ghost use Rattle.bicep_declared.specs.View.{body_tree};
ghost use Rattle.bicep_resolved.specs.View.{property_of, value_of, properties};
ghost use Rattle.declaration_laws.specs.Sound.{IsSound};
ghost use Rattle.emitted_resources.specs.Files.{frames_around};
ghost use Rattle.emitted_resources.specs.Extremes.{value_extremes};
ghost use Rattle.emitted_resources.specs.Measures.{IsOf, Takes};
ghost use Rattle.emitted_resources.specs.Seen.{file_in, whole_in};
ghost use Rattle.emitted_resources.specs.Filled.{IsFilled, emission_sight};
ghost use Rattle.emitted_modules.specs.Arguments.{argument_value, arguments_in, arguments_extremes};

use crate::fields::{arguments_of, value_in};
use arm_value::{OutOfMemory, Text};
use bicep_declared::DeclaredBody;
use bicep_resolved::{Property, SourceValue};
use emitted_parts::letting_go;
use emitted_resources::{Measure, Span, Table, measured_content, span_around};
use std::alloc::Global;

// What a value takes as an argument.
fn measured_value(
    alloc: Global,
    table: &Table,
    value: &SourceValue,
    spans: &[Span],
) -> Result<Measure, OutOfMemory>
    requires filled { IsFilled table.now }
    requires sound { IsSound (file_in table.now) }
    ensures { Takes spans.now result (λ fs. value_extremes (argument_value (emission_sight table.now)
        (value_of value.now) fs)) }
{
    match Text::of(alloc, "value") {
        Ok(name) => letting_go(
            measured_content(alloc, table, Some(&name), value, spans),
            name,
        ),
        Err(error) => Err(error),
    }
}

// What the argument of a member of `params` takes.
fn measured_argument(
    alloc: Global,
    table: &Table,
    member: &Property,
    spans: &[Span],
) -> Result<Measure, OutOfMemory>
    requires filled { IsFilled table.now }
    requires sound { IsSound (file_in table.now) }
    ensures { Takes spans.now result (λ fs. value_extremes (argument_value (emission_sight table.now)
        (property_of member.now).2 fs)) }
{
    measured_value(alloc, table, value_in(member), spans)
}

// What the arguments of these members of `params` take.
fn all_arguments(
    alloc: Global,
    table: &Table,
    members: &[Property],
    spans: &[Span],
) -> Result<Measure, OutOfMemory>
    requires filled { IsFilled table.now }
    requires sound { IsSound (file_in table.now) }
    ensures { Takes spans.now result (λ fs. arguments_extremes (emission_sight table.now) fs
        (properties (map property_of members.now))) }
{
    let mut all = Measure::nothing();
    for member in members {
        all = all.with(measured_argument(alloc, table, member, spans)?);
    }
    Ok(all.ended())
}

/// How much of the limits of templates the arguments of a module take, each as the member `value` of an object.
///
/// # Errors
///
/// `OutOfMemory`.
pub fn measured_arguments(
    alloc: Global,
    table: &Table,
    number: usize,
    body: &DeclaredBody,
) -> Result<Measure, OutOfMemory>
    requires filled { IsFilled table.now }
    requires sound { IsSound (file_in table.now) }
    ensures { IfOk result (IsOf (arguments_extremes (emission_sight table.now)
        (frames_around (whole_in table.now) number (body_tree body.now).each)
        (arguments_in (body_tree body.now).fields))) }
{
    let members = arguments_of(body.fields.as_slice());
    match span_around(table, number, body) {
        Some(span) => all_arguments(alloc, table, members, &[span]),
        None => all_arguments(alloc, table, members, &[]),
    }
}
