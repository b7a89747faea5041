// What the outputs of nested deployments have.
ghost use Rattle.std.specs.Prelude.{◌≡◌, ◌<◌, ◌++◌, ◌∷◌, [], length, map, IfOk, Some, if◌then◌else◌};
ghost use Rattle.arm_value.specs.Look.{fold};
ghost use Rattle.arm_value.specs.View.{json};
ghost use Rattle.arm_env.specs.Look.{a_value, a_list};
ghost use Rattle.arm_env.specs.Look as look;
ghost use Rattle.arm_env.specs.Sight.{declared_of};
ghost use Rattle.reading.specs.Reading.{ask, pure};
ghost use Rattle.deploy_cells.specs.Cells as cells;
ghost use Rattle.plan_cells.specs.Children.{Has, output_names};
ghost use Rattle.plan_cells.specs.Sites.{Site, looked_up, output_at, declared_output, outputs_at, offered_outputs};
ghost use Rattle.plan_cells.specs.Sites.{outputs_in};
ghost use Rattle.plan_table.specs.Lines.{cell_of, line_at};
ghost use Rattle.plan_table.specs.Whole.{whole_of, scopes_of};
ghost use Rattle.plan_table.specs.Found.{scope_at, IsLineOf};
ghost use Rattle.plan_sight.specs.Ready.{IsReady};
ghost use Rattle.plan_sight.specs.Seen.{Shows, Yields};
ghost use Rattle.plan_nested.specs.Sighted.{IsInside, IsThere, found_of, instance_at};
ghost use Rattle.point_rows.specs.Rows.{entry_at, told_now, IsFit};
ghost use Rattle.point_rows.specs.Looked.{IsOfferedBy};
ghost use Rattle.arm_value.specs.Kinds.{is_true};

use crate::later::{Entry, Later};
use arm_env::entries::Declared;
use arm_ids::{Key, Place};
use arm_value::{OutOfMemory, Text, Value};
use plan_listing::words::TypeTexts;
use plan_nested::seeking::{Sighting, seek};
use plan_sight::lack::Lack;
use plan_table::table::Table;
use std::alloc::Global;
use template_parts::Output;

// The value of an output of a scope inside, by the line of its condition.
fn output_by<'t>(
    table: &'t Table,
    later: &'t Later,
    inside: usize,
    condition: usize,
    name: &Text,
) -> Result<&'t Value, Lack>
    requires ready { IsReady table.now }
    requires fit { IsFit table.now later.now }
    requires inside { IsInside table.now inside }
    requires line { IsLineOf table.now inside
        (cells.offered (scope_at table.now inside).position (fold name.now)) condition }
    ensures { Shows (λ v. a_value (json v.now)) table.now result (told_now table.now later.now
        (output_at (whole_of table.now).template (fold name.now)
        (instance_at (scope_at table.now inside).position))) }
{
    match &later.entries[condition] {
        Entry::Value(value) => Ok(value),
        Entry::Away => Err(Lack::NotThere),
        Entry::Missing => Err(Lack::Line(condition)),
    }
}

// The value of an output of a scope inside.
fn output_in<'t>(
    alloc: Global,
    table: &'t Table,
    later: &'t Later,
    inside: usize,
    name: &Text,
) -> Result<&'t Value, Lack>
    requires ready { IsReady table.now }
    requires fit { IsFit table.now later.now }
    requires inside { IsInside table.now inside }
    ensures { Shows (λ v. a_value (json v.now)) table.now result (told_now table.now later.now
        (output_at (whole_of table.now).template (fold name.now)
        (instance_at (scope_at table.now inside).position))) }
{
    match table.offered_line(alloc, inside, name) {
        Ok(Some(condition)) => output_by(table, later, inside, condition, name),
        Ok(None) => Err(Lack::NotThere),
        Err(_) => Err(Lack::OutOfMemory),
    }
}

// The value of an output of the nested deployment that was found.
fn output_found<'t>(
    alloc: Global,
    table: &'t Table,
    later: &'t Later,
    sighting: Sighting,
    name: &Text,
) -> Result<&'t Value, Lack>
    requires ready { IsReady table.now }
    requires fit { IsFit table.now later.now }
    requires there { IsThere table.now sighting }
    ensures { Shows (λ v. a_value (json v.now)) table.now result (told_now table.now later.now
        (output_at (whole_of table.now).template (fold name.now) (found_of table.now sighting))) }
{
    match sighting {
        Sighting::Scope(inside) => output_in(alloc, table, later, inside, name),
        Sighting::LeftAway => Err(Lack::NotThere),
        Sighting::Nowhere => Err(Lack::NotThere),
    }
}

/// The value of an output of the nested deployment at a key.
pub fn look_output<'t>(
    alloc: Global,
    table: &'t Table,
    later: &'t Later,
    frame: usize,
    place: &Place,
    key: &Key,
    name: &Text,
) -> Result<&'t Value, Lack>
    requires ready { IsReady table.now }
    requires fit { IsFit table.now later.now }
    requires there { frame < length table.now.frames.items }
    ensures { (e : Site) → e.at ≡ (scope_at table.now frame).position
        → Shows (λ v. a_value (json v.now)) table.now result (told_now table.now later.now
        (looked_up (whole_of table.now).template place.now e (look.output key.now (fold name.now)))) }
{
    match seek(alloc, table, frame, key, place) {
        Ok(sighting) => output_found(alloc, table, later, sighting, name),
        Err(lack) => Err(lack),
    }
}

// Whether the condition of an output, at a line, is true.
fn is_offered(later: &Later, at: usize) -> Result<bool, Lack>
    requires listed { at < length later.now.entries.items }
    ensures { IsOfferedBy (entry_at later.now.entries.items at) at result }
{
    match &later.entries[at] {
        Entry::Value(_) => Ok(true),
        Entry::Away => Ok(false),
        Entry::Missing => Err(Lack::Line(at)),
    }
}

// Whether the condition of an output of a scope is true.
fn offered_in(
    alloc: Global,
    table: &Table,
    later: &Later,
    frame: usize,
    name: &Text,
) -> Result<bool, Lack>
    requires ready { IsReady table.now }
    requires fit { IsFit table.now later.now }
    requires there { frame < length table.now.frames.items }
    requires named { Has (fold name.now) (output_names (scope_at table.now frame).template) }
    ensures { Yields (λ b. b) table.now result (told_now table.now later.now
        (ask (cells.offered (scope_at table.now frame).position (fold name.now)) (λ v. pure (is_true v)))) }
{
    match table.offered_line(alloc, frame, name) {
        Ok(Some(at)) => is_offered(later, at),
        Ok(None) => unreachable!(),
        Err(_) => Err(Lack::OutOfMemory),
    }
}

// Adds an output as it is declared.
fn push_declared<'t>(
    listed: &mut Vec<Declared<'t>>,
    output: &'t Output,
    texts: &'t TypeTexts,
) -> Result<(), OutOfMemory>
    ensures { IfOk result (λ _. map declared_of listed.new.items
        ≡ map declared_of listed.old.items ++ declared_output output.now ∷ []) }
{
    listed.push(Declared {
        name: &output.name,
        kind: texts.of(output.kind),
    })?;
    Ok(())
}

// Adds an output as it is declared, where its condition is true.
fn push_offered<'t>(
    listed: &mut Vec<Declared<'t>>,
    output: &'t Output,
    texts: &'t TypeTexts,
    offered: bool,
) -> Result<(), OutOfMemory>
    ensures { IfOk result (λ _. map declared_of listed.new.items ≡ map declared_of listed.old.items
        ++ (if offered then declared_output output.now ∷ [] else [])) }
{
    if offered {
        push_declared(listed, output, texts)
    } else {
        Ok(())
    }
}

// The outputs of a scope that their conditions do not leave away.
fn outputs_of<'t>(
    alloc: Global,
    table: &'t Table,
    later: &Later,
    frame: usize,
    texts: &'t TypeTexts,
) -> Result<Vec<Declared<'t>>, Lack>
    requires ready { IsReady table.now }
    requires fit { IsFit table.now later.now }
    requires there { frame < length table.now.frames.items }
    ensures { Yields (λ v. map declared_of v.items) table.now result (told_now table.now later.now
        (offered_outputs (scope_at table.now frame).position
        (outputs_in (Some (scope_at table.now frame).template)))) }
{
    let mut listed = Vec::new(alloc);
    let outputs = table.frames[frame].template.outputs.as_slice();
    for output in outputs {
        match offered_in(alloc, table, later, frame, &output.name) {
            Ok(offered) => push_offered(&mut listed, output, texts, offered)?,
            Err(lack) => return Err(lack),
        }
    }
    Ok(listed)
}

// The outputs of what was found.
fn outputs_found<'t>(
    alloc: Global,
    table: &'t Table,
    later: &Later,
    texts: &'t TypeTexts,
    sighting: Sighting,
) -> Result<Vec<Declared<'t>>, Lack>
    requires ready { IsReady table.now }
    requires fit { IsFit table.now later.now }
    requires there { IsThere table.now sighting }
    ensures { Shows (λ v. a_list (map declared_of v.items)) table.now result (told_now table.now later.now
        (outputs_at (whole_of table.now).template (found_of table.now sighting))) }
{
    match sighting {
        Sighting::Scope(inside) => outputs_of(alloc, table, later, inside, texts),
        Sighting::LeftAway => Err(Lack::NotThere),
        Sighting::Nowhere => Err(Lack::NotThere),
    }
}

/// The outputs that the nested deployment at a key has, without those that their conditions leave away.
pub fn look_outputs<'t>(
    alloc: Global,
    table: &'t Table,
    later: &Later,
    texts: &'t TypeTexts,
    frame: usize,
    place: &Place,
    key: &Key,
) -> Result<Vec<Declared<'t>>, Lack>
    requires ready { IsReady table.now }
    requires fit { IsFit table.now later.now }
    requires there { frame < length table.now.frames.items }
    ensures { (e : Site) → e.at ≡ (scope_at table.now frame).position
        → Shows (λ v. a_list (map declared_of v.items)) table.now result (told_now table.now later.now
        (looked_up (whole_of table.now).template place.now e (look.outputs key.now))) }
{
    match seek(alloc, table, frame, key, place) {
        Ok(sighting) => outputs_found(alloc, table, later, texts, sighting),
        Err(lack) => Err(lack),
    }
}
