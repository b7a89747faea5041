// The outputs that the nested deployment at a key has.
ghost use Rattle.std.specs.Prelude.{◌≡◌, ◌<◌, ◌++◌, ◌∷◌, [], length, map, IfOk, Some, if◌then◌else◌};
ghost use Rattle.arm_value.specs.Look.{fold};
ghost use Rattle.arm_env.specs.Look.{a_list};
ghost use Rattle.arm_env.specs.Look as look;
ghost use Rattle.arm_env.specs.Sight.{declared_of};
ghost use Rattle.reading.specs.Reading.{ask, pure};
ghost use Rattle.deploy_cells.specs.Cells as cells;
ghost use Rattle.plan_sight.specs.Children.{Has, output_names};
ghost use Rattle.plan_sight.specs.Sites.{Site, looked_up, declared_output, outputs_at, offered_outputs, outputs_in};
ghost use Rattle.plan_table.specs.Whole.{whole_of};
ghost use Rattle.plan_table.specs.Found.{scope_at};
ghost use Rattle.plan_sight.specs.Ready.{IsReady, told_in};
ghost use Rattle.plan_sight.specs.Seen.{Shows, Yields};
ghost use Rattle.plan_nested.specs.Sighted.{IsInside, IsThere, found_of, instance_at};
ghost use Rattle.arm_value.specs.Kinds.{is_true};

use crate::look::is_offered;
use crate::seeking::{Sighting, seek};
use arm_env::entries::Declared;
use arm_ids::{Key, Place};
use arm_value::{OutOfMemory, Text};
use plan_listing::words::TypeTexts;
use plan_sight::lack::Lack;
use plan_table::table::Table;
use std::alloc::Global;
use template_parts::Output;

// Whether the condition of an output of a scope is true.
fn offered_in(alloc: Global, table: &Table, frame: usize, name: &Text) -> Result<bool, Lack>
    requires ready { IsReady table.now }
    requires there { frame < length table.now.frames.items }
    requires named { Has (fold name.now) (output_names (scope_at table.now frame).template) }
    ensures { Yields (λ b. b) table.now result (told_in table.now
        (ask (cells.offered (scope_at table.now frame).position (fold name.now)) (λ v. pure (is_true v)))) }
{
    match table.offered_line(alloc, frame, name) {
        Ok(Some(at)) => is_offered(table, at),
        Ok(None) => unreachable!(),
        Err(_) => Err(Lack::OutOfMemory),
    }
}

// Adds an output as it is declared.
fn push_declared<'t>(
    listed: &mut Vec<Declared<'t>>,
    output: &'t Output,
    texts: &'t TypeTexts,
) -> Result<(), OutOfMemory>
    ensures { IfOk result (λ _. map declared_of listed.new.items
        ≡ map declared_of listed.old.items ++ declared_output output.now ∷ []) }
{
    listed.push(Declared {
        name: &output.name,
        kind: texts.of(output.kind),
    })?;
    Ok(())
}

// Adds an output as it is declared, where its condition is true.
fn push_offered<'t>(
    listed: &mut Vec<Declared<'t>>,
    output: &'t Output,
    texts: &'t TypeTexts,
    offered: bool,
) -> Result<(), OutOfMemory>
    ensures { IfOk result (λ _. map declared_of listed.new.items ≡ map declared_of listed.old.items
        ++ (if offered then declared_output output.now ∷ [] else [])) }
{
    if offered {
        push_declared(listed, output, texts)
    } else {
        Ok(())
    }
}

// The outputs of a scope that their conditions do not leave away.
fn outputs_of<'t>(
    alloc: Global,
    table: &'t Table,
    frame: usize,
    texts: &'t TypeTexts,
) -> Result<Vec<Declared<'t>>, Lack>
    requires ready { IsReady table.now }
    requires there { frame < length table.now.frames.items }
    ensures { Yields (λ v. map declared_of v.items) table.now result (told_in table.now
        (offered_outputs (scope_at table.now frame).position
        (outputs_in (Some (scope_at table.now frame).template)))) }
{
    let mut listed = Vec::new(alloc);
    let outputs = table.frames[frame].template.outputs.as_slice();
    for output in outputs {
        match offered_in(alloc, table, frame, &output.name) {
            Ok(offered) => push_offered(&mut listed, output, texts, offered)?,
            Err(lack) => return Err(lack),
        }
    }
    Ok(listed)
}

// The outputs of what was found.
fn outputs_found<'t>(
    alloc: Global,
    table: &'t Table,
    texts: &'t TypeTexts,
    sighting: Sighting,
) -> Result<Vec<Declared<'t>>, Lack>
    requires ready { IsReady table.now }
    requires there { IsThere table.now sighting }
    ensures { Shows (λ v. a_list (map declared_of v.items)) table.now result (told_in table.now
        (outputs_at (whole_of table.now).template (found_of table.now sighting))) }
{
    match sighting {
        Sighting::Scope(inside) => outputs_of(alloc, table, inside, texts),
        Sighting::LeftAway => Err(Lack::NotThere),
        Sighting::Nowhere => Err(Lack::NotThere),
    }
}

/// The outputs that the nested deployment at a key has, without those that their conditions leave away.
pub fn look_outputs<'t>(
    alloc: Global,
    table: &'t Table,
    texts: &'t TypeTexts,
    frame: usize,
    place: &Place,
    key: &Key,
) -> Result<Vec<Declared<'t>>, Lack>
    requires ready { IsReady table.now }
    requires there { frame < length table.now.frames.items }
    ensures { (e : Site) → e.at ≡ (scope_at table.now frame).position
        → Shows (λ v. a_list (map declared_of v.items)) table.now result (told_in table.now
        (looked_up (whole_of table.now).template place.now e (look.outputs key.now))) }
{
    match seek(alloc, table, frame, key, place) {
        Ok(sighting) => outputs_found(alloc, table, texts, sighting),
        Err(lack) => Err(lack),
    }
}
