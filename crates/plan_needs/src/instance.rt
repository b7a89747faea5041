// The tags of a task that ends an instance, and those for which one asks that starts it.
ghost use Rattle.std.specs.Prelude.{◌≡◌, ◌∷◌, ◌++◌, [], map, IfOk, Some};
ghost use Rattle.arm_value.specs.View.{json};
ghost use Rattle.deploy_cells.specs.Cells.{step};
ghost use Rattle.tag_needs.specs.Tags.{tags_of};
ghost use Rattle.plan_cells.specs.Reads.{key_in};
ghost use Rattle.plan_cells.specs.Start.{start_world};
ghost use Rattle.plan_cells.specs.Tasks.{put};
ghost use Rattle.name_tags.specs.TaskCodes.{instance_names, instance_asks, task_tags, task_asks};
ghost use Rattle.plan_table.specs.Whole.{whole_of, scopes_of};
ghost use Rattle.plan_table.specs.Found.{scope_at};
ghost use Rattle.plan_tasks.specs.Start.{start_of, IsStartTable, IsInstance};
ghost use Rattle.plan_needs.specs.Numbers.{number_in};
ghost use Rattle.plan_needs.specs.Order.{number_by, loop_codes, loop_at};
ghost use Rattle.plan_needs.specs.Needs.{scope_loops};

use crate::batch::{Batch, push_batch};
use crate::order::{push_entry, push_inside};
use arm_ids::Key;
use arm_value::{OutOfMemory, Value};
use name_set::NameSet;
use name_tags::{Titled, push_asks, push_names};
use plan_openers::Opener;
use plan_table::table::Table;
use plan_tasks::key_at;
use std::alloc::Global;

// Lists a batch of an instance.
fn push_own_batch(
    alloc: Global,
    table: &Table,
    tags: &mut Vec<Vec<usize>>,
    opener: Opener,
    batch: Batch,
) -> Result<(), OutOfMemory>
    requires table { IsStartTable table.now }
    requires instance { IsInstance table.now opener.frame opener.resource opener.copy }
    ensures { IfOk result (λ _. tags_of tags.new ≡ tags_of tags.old ++ loop_codes (number_by batch) opener.frame
        opener.resource opener.copy (loop_at (scope_at table.now opener.frame) opener.resource)) }
{
    let looping = &table.frames[opener.frame].resources[opener.resource]
        .declaration
        .copy;
    push_batch(alloc, tags, opener, batch, looping)
}

// Lists the names of an instance, by its key.
fn push_keyed_names(
    alloc: Global,
    table: &Table,
    tags: &mut Vec<Vec<usize>>,
    opener: Opener,
    key: &Key,
) -> Result<(), OutOfMemory>
    requires table { IsStartTable table.now }
    requires instance { IsInstance table.now opener.frame opener.resource opener.copy }
    requires key { key_in (whole_of table.now) (start_world (start_of table.now))
        (scope_at table.now opener.frame).position (step opener.resource opener.copy) ≡ Some key.now }
    ensures { IfOk result (λ _. tags_of tags.new ≡ tags_of tags.old ++ instance_names (whole_of table.now)
        (number_in (scopes_of table.now)) (start_of table.now)
        (Some ((scope_at table.now opener.frame).position, step opener.resource opener.copy))) }
{
    let frame = &table.frames[opener.frame];
    let titled = Titled {
        listed: &frame.resources[opener.resource],
        copy: opener.copy,
        key,
    };
    push_names(alloc, tags, opener.frame, frame.template.form, &titled)
}

// Lists the names of an instance.
fn push_instance_names(
    alloc: Global,
    table: &Table,
    tags: &mut Vec<Vec<usize>>,
    opener: Opener,
) -> Result<(), OutOfMemory>
    requires table { IsStartTable table.now }
    requires instance { IsInstance table.now opener.frame opener.resource opener.copy }
    ensures { IfOk result (λ _. tags_of tags.new ≡ tags_of tags.old ++ instance_names (whole_of table.now)
        (number_in (scopes_of table.now)) (start_of table.now)
        (Some ((scope_at table.now opener.frame).position, step opener.resource opener.copy))) }
{
    match key_at(alloc, table, opener.frame, opener.resource, opener.copy)? {
        Some(key) => push_keyed_names(alloc, table, tags, opener, &key),
        None => unreachable!(),
    }
}

/// The tags of a task that ends an instance.
pub fn end_tags(
    alloc: Global,
    table: &Table,
    opener: Opener,
) -> Result<Vec<Vec<usize>>, OutOfMemory>
    requires table { IsStartTable table.now }
    requires instance { IsInstance table.now opener.frame opener.resource opener.copy }
    ensures { IfOk result (λ v. tags_of v ≡ task_tags (whole_of table.now) (number_in (scopes_of table.now))
        (start_of table.now)
        (put (scope_at table.now opener.frame).position (step opener.resource opener.copy))) }
{
    let mut tags = Vec::new(alloc);
    push_inside(alloc, &mut tags, opener.frame)?;
    push_own_batch(alloc, table, &mut tags, opener, Batch::Next)?;
    push_instance_names(alloc, table, &mut tags, opener)?;
    Ok(tags)
}

// Lists for what the values of the elements of `dependsOn` of an instance ask.
fn push_instance_asks(
    alloc: Global,
    table: &Table,
    loops: &[NameSet],
    asks: &mut Vec<Vec<usize>>,
    opener: Opener,
    values: &[Value],
) -> Result<(), OutOfMemory>
    requires table { IsStartTable table.now }
    requires loops { loops.now ≡ map scope_loops (scopes_of table.now) }
    requires instance { IsInstance table.now opener.frame opener.resource opener.copy }
    ensures { IfOk result (λ _. tags_of asks.new ≡ tags_of asks.old ++ instance_asks (whole_of table.now)
        (number_in (scopes_of table.now))
        (Some ((scope_at table.now opener.frame).position, step opener.resource opener.copy))
        (map json values.now)) }
{
    let form = table.frames[opener.frame].template.form;
    push_asks(
        alloc,
        asks,
        opener.frame,
        form,
        &loops[opener.frame],
        values,
    )
}

/// Those for which a task asks that starts an instance.
pub fn start_asks(
    alloc: Global,
    table: &Table,
    loops: &[NameSet],
    opener: Opener,
    values: &[Value],
) -> Result<Vec<Vec<usize>>, OutOfMemory>
    requires table { IsStartTable table.now }
    requires loops { loops.now ≡ map scope_loops (scopes_of table.now) }
    requires instance { IsInstance table.now opener.frame opener.resource opener.copy }
    ensures { IfOk result (λ v. tags_of v ≡ task_asks (whole_of table.now) (number_in (scopes_of table.now))
        (put (scope_at table.now opener.frame).position (step opener.resource opener.copy)) (map json values.now)) }
{
    let mut asks = Vec::new(alloc);
    push_entry(alloc, &mut asks, opener.frame)?;
    push_own_batch(alloc, table, &mut asks, opener, Batch::Own)?;
    push_instance_asks(alloc, table, loops, &mut asks, opener, values)?;
    Ok(asks)
}
