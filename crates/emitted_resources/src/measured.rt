//! How much of the limits of templates resources take.
ghost use Rattle.std.specs.Prelude.{IfOk};
ghost use Rattle.bicep_declared.specs.View.{body_tree};
ghost use Rattle.emission_laws.specs.Sound.{IsSound};
ghost use Rattle.emitted_values.specs.Templates as t;
ghost use Rattle.emitted_values.specs.EmittedTrees.{count_of as count_tree};
ghost use Rattle.measured_trees.specs.Extremes.{tree_extremes};
ghost use Rattle.measured_trees.specs.Measures.{IsOf};
ghost use Rattle.emitted_values.specs.Seen.{file_in, whole_in, sight};
ghost use Rattle.emitted_values.specs.Filled.{IsFilled};
ghost use Rattle.emitted_resources.specs.Limits.{count_extremes, head_extremes, resource_extremes, members_at};

use crate::bodies::measured_members;
use crate::turns::{items_extent, span_around};
use arm_value::OutOfMemory;
use bicep_declared::DeclaredBody;
use emitted_values::Table;
use measured_trees::spans::count_of;
use measured_trees::{Measure, of_expression};
use std::alloc::Global;

// How much the count of a loop takes, where there is one.
fn measured_count(table: &Table, number: usize, body: &DeclaredBody) -> Measure
    ensures { IsOf (count_extremes (body_tree body.now).each (count_tree ((sight table.now).scope.items number)))
        result }
{
    match &body.each {
        Some(_) => of_expression(count_of(items_extent(table, number))),
        None => Measure::nothing(),
    }
}

/// How much of the limits the name, the condition and the loop of a resource or a module take. A whole name counts as
/// an expression, also where it is a text.
pub fn measured_head(table: &Table, number: usize, body: &DeclaredBody) -> Measure
    requires { IsFilled table.now }
    ensures { IsOf (head_extremes (whole_in table.now) number (body_tree body.now).each) result }
{
    let span = span_around(table, number, body);
    let name = of_expression(table.full_name_extent(number, span));
    let condition = of_expression(table.condition_extent(number, span));
    let count = measured_count(table, number, body);
    name.with(condition).with(count)
}

// How much the members take that the fields of a resource become, as an object.
fn measured_fields(
    alloc: Global,
    table: &Table,
    number: usize,
    body: &DeclaredBody,
) -> Result<Measure, OutOfMemory>
    requires filled { IsFilled table.now }
    requires sound { IsSound (file_in table.now) }
    ensures { IfOk result (IsOf (tree_extremes (t.object (members_at table.now number (body_tree body.now))))) }
{
    let fields = body.fields.as_slice();
    match span_around(table, number, body) {
        Some(span) => measured_members(alloc, table, fields, &[span]),
        None => measured_members(alloc, table, fields, &[]),
    }
}

/// How much of the limits of templates a resource takes.
///
/// # Errors
///
/// `OutOfMemory`.
pub fn measured_resource(
    alloc: Global,
    table: &Table,
    number: usize,
    body: &DeclaredBody,
) -> Result<Measure, OutOfMemory>
    requires filled { IsFilled table.now }
    requires sound { IsSound (file_in table.now) }
    ensures { IfOk result (IsOf (resource_extremes table.now number (body_tree body.now))) }
{
    let members = measured_fields(alloc, table, number, body)?;
    Ok(measured_head(table, number, body).with(members))
}
