// The names and the keys of the instances of lines.
ghost use Rattle.std.specs.Prelude.{◌≡◌, ◌<◌, Some, length, IfOk};
ghost use Rattle.deploy_cells.specs.Cells.{step};
ghost use Rattle.tag_needs.specs.Tags.{tags_of, tags_in};
ghost use Rattle.tag_holders.specs.Holders.{classes_in};
ghost use Rattle.plan_cells.specs.Reads.{key_in};
ghost use Rattle.plan_cells.specs.Start.{start_world};
ghost use Rattle.plan_codes.specs.TaskCodes.{instance_names};
ghost use Rattle.plan_table.specs.Lines.{line_at};
ghost use Rattle.plan_table.specs.Whole.{whole_of, scopes_of};
ghost use Rattle.plan_table.specs.Found.{scope_at};
ghost use Rattle.plan_tasks.specs.Start.{start_of, IsStartTable, IsInstance};
ghost use Rattle.argument_faults.specs.Numbers.{number_in};
ghost use Rattle.dependency_faults.specs.Names.{spot_names, key_class, spot_class, names_in, classes_of};

use arm_ids::Key;
use arm_value::OutOfMemory;
use key_tags::key_tag;
use name_tags::{Titled, push_names};
use plan_openers::Opener;
use plan_table::line::Spot;
use plan_table::table::Table;
use plan_tasks::key_at;
use std::alloc::Global;

// The names of an instance, by its key.
fn keyed_names(
    alloc: Global,
    table: &Table,
    opener: Opener,
    key: &Key,
) -> Result<Vec<Vec<usize>>, OutOfMemory>
    requires table { IsStartTable table.now }
    requires instance { IsInstance table.now opener.frame opener.resource opener.copy }
    requires key { key_in (whole_of table.now) (start_world (start_of table.now))
        (scope_at table.now opener.frame).position (step opener.resource opener.copy) ≡ Some key.now }
    ensures { IfOk result (λ v. tags_of v ≡ instance_names (whole_of table.now) (number_in (scopes_of table.now))
        (start_of table.now) (Some ((scope_at table.now opener.frame).position, step opener.resource opener.copy))) }
{
    let frame = &table.frames[opener.frame];
    let titled = Titled {
        listed: &frame.resources[opener.resource],
        copy: opener.copy,
        key,
    };
    let mut tags = Vec::new(alloc);
    push_names(alloc, &mut tags, opener.frame, frame.template.form, &titled)?;
    Ok(tags)
}

// The names of an instance.
fn names_of(alloc: Global, table: &Table, opener: Opener) -> Result<Vec<Vec<usize>>, OutOfMemory>
    requires table { IsStartTable table.now }
    requires instance { IsInstance table.now opener.frame opener.resource opener.copy }
    ensures { IfOk result (λ v. tags_of v ≡ instance_names (whole_of table.now) (number_in (scopes_of table.now))
        (start_of table.now) (Some ((scope_at table.now opener.frame).position, step opener.resource opener.copy))) }
{
    match key_at(alloc, table, opener.frame, opener.resource, opener.copy)? {
        Some(key) => keyed_names(alloc, table, opener, &key),
        None => unreachable!(),
    }
}

// The names of the instance of a line.
fn names_of_line(alloc: Global, table: &Table, at: usize) -> Result<Vec<Vec<usize>>, OutOfMemory>
    requires table { IsStartTable table.now }
    requires listed { at < length table.now.lines.items }
    ensures { IfOk result (λ v. tags_of v ≡ spot_names table.now (line_at table.now.lines.items at).spot) }
{
    match table.lines[at].spot {
        Spot::Name(frame, resource, copy) => {
            let opener = Opener {
                frame,
                resource,
                copy,
            };
            names_of(alloc, table, opener)
        }
        Spot::Parameter(_, _) => Ok(Vec::new(alloc)),
        Spot::Variable(_, _) => Ok(Vec::new(alloc)),
        Spot::Offered(_, _) => Ok(Vec::new(alloc)),
        Spot::Output(_, _) => Ok(Vec::new(alloc)),
        Spot::Count(_, _) => Ok(Vec::new(alloc)),
        Spot::Included(_, _, _) => Ok(Vec::new(alloc)),
        Spot::Deployments(_) => Ok(Vec::new(alloc)),
    }
}

/// The names of the instance of each line.
pub fn names_of_lines(alloc: Global, table: &Table) -> Result<Vec<Vec<Vec<usize>>>, OutOfMemory>
    requires table { IsStartTable table.now }
    ensures { IfOk result (λ v. tags_in v.items ≡ names_in table.now) }
{
    let mut all = Vec::new(alloc);
    'lines: for at in 0..table.lines.len() {
        let tags = names_of_line(alloc, table, at)?;
        all.push(tags)?;
    }
    Ok(all)
}

// A key as a class; an empty one without a key.
fn class_of_key(alloc: Global, key: &Option<Key>) -> Result<Vec<usize>, OutOfMemory>
    ensures { IfOk result (λ v. v.items ≡ key_class key.now) }
{
    match key {
        Some(key) => key_tag(alloc, key),
        None => Ok(Vec::new(alloc)),
    }
}

// The key of the instance of a line as a class.
fn class_of_line(alloc: Global, table: &Table, at: usize) -> Result<Vec<usize>, OutOfMemory>
    requires table { IsStartTable table.now }
    requires listed { at < length table.now.lines.items }
    ensures { IfOk result (λ v. v.items ≡ spot_class table.now (line_at table.now.lines.items at).spot) }
{
    match table.lines[at].spot {
        Spot::Name(frame, resource, copy) => {
            let key = key_at(alloc, table, frame, resource, copy)?;
            class_of_key(alloc, &key)
        }
        Spot::Parameter(_, _) => Ok(Vec::new(alloc)),
        Spot::Variable(_, _) => Ok(Vec::new(alloc)),
        Spot::Offered(_, _) => Ok(Vec::new(alloc)),
        Spot::Output(_, _) => Ok(Vec::new(alloc)),
        Spot::Count(_, _) => Ok(Vec::new(alloc)),
        Spot::Included(_, _, _) => Ok(Vec::new(alloc)),
        Spot::Deployments(_) => Ok(Vec::new(alloc)),
    }
}

/// The key of the instance of each line as a class.
pub fn classes_of_lines(alloc: Global, table: &Table) -> Result<Vec<Vec<usize>>, OutOfMemory>
    requires table { IsStartTable table.now }
    ensures { IfOk result (λ v. classes_in v.items ≡ classes_of table.now) }
{
    let mut all = Vec::new(alloc);
    'lines: for at in 0..table.lines.len() {
        let class = class_of_line(alloc, table, at)?;
        all.push(class)?;
    }
    Ok(all)
}
