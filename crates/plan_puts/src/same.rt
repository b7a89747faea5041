// Two instances that are put and have one key.
ghost use Rattle.std.specs.Prelude.{◌≡◌, ◌<◌, ℕ, IfOk, MatchOption, length, map};
ghost use Rattle.deploy_cells.specs.Cells.{Step, step, Position, included};
ghost use Rattle.tag_needs.specs.Tags.{tags_of, tags_in};
ghost use Rattle.plan_cells.specs.Reads.{key_in};
ghost use Rattle.plan_cells.specs.Start.{start_world};
ghost use Rattle.plan_table.specs.Lines.{cell_of, line_at};
ghost use Rattle.plan_table.specs.declared.line.Spot.TheVariants as spot;
ghost use Rattle.plan_table.specs.Whole.{whole_of, scopes_of, rows_in};
ghost use Rattle.plan_table.specs.Found.{scope_at};
ghost use Rattle.plan_tasks.specs.Start.{start_of, IsStartTable, IsInstance};
ghost use Rattle.plan_refusals.specs.Keys.{ShareKey};
ghost use Rattle.plan_puts.specs.PutTags.{key_tags, cell_tags, row_tags, AreSamePut};

use arm_ids::Key;
use arm_value::OutOfMemory;
use key_tags::key_tag;
use plan_openers::Opener;
use plan_table::line::Spot;
use plan_table::table::Table;
use plan_tasks::instance::{Found, find_instance};
use plan_tasks::key_at;
use std::alloc::Global;
use tag_needs::find_shared;

// The tag of a key; none without a key.
fn tags_by(alloc: Global, key: &Option<Key>) -> Result<Vec<Vec<usize>>, OutOfMemory>
    ensures { IfOk result (λ v. tags_of v ≡ key_tags key.now) }
{
    let mut tags = Vec::new(alloc);
    match key {
        Some(key) => {
            let tag = key_tag(alloc, key)?;
            tags.push(tag)?;
        }
        None => {}
    }
    Ok(tags)
}

// The tag of the key of an instance.
fn tags_of_key(
    alloc: Global,
    table: &Table,
    frame: usize,
    resource: usize,
    copy: usize,
) -> Result<Vec<Vec<usize>>, OutOfMemory>
    requires table { IsStartTable table.now }
    requires instance { IsInstance table.now frame resource copy }
    ensures { IfOk result (λ v. tags_of v ≡ key_tags (key_in (whole_of table.now) (start_world (start_of table.now))
        (scope_at table.now frame).position (step resource copy))) }
{
    let key = key_at(alloc, table, frame, resource, copy)?;
    tags_by(alloc, &key)
}

// The tags of the condition of an instance.
fn tags_of_instance(
    alloc: Global,
    table: &Table,
    frame: usize,
    resource: usize,
    copy: usize,
) -> Result<Vec<Vec<usize>>, OutOfMemory>
    requires table { IsStartTable table.now }
    requires instance { IsInstance table.now frame resource copy }
    ensures { IfOk result (λ v. tags_of v ≡ cell_tags (whole_of table.now) (start_of table.now)
        (included (scope_at table.now frame).position (step resource copy))) }
{
    match find_instance(alloc, table, frame, resource, copy)? {
        Found::Resource => tags_of_key(alloc, table, frame, resource, copy),
        Found::LeftAway => Ok(Vec::new(alloc)),
        Found::Scope(_) => Ok(Vec::new(alloc)),
    }
}

// The tags of a line.
fn tags_of_line(alloc: Global, table: &Table, at: usize) -> Result<Vec<Vec<usize>>, OutOfMemory>
    requires table { IsStartTable table.now }
    requires listed { at < length table.now.lines.items }
    ensures { IfOk result (λ v. tags_of v ≡ cell_tags (whole_of table.now) (start_of table.now)
        (cell_of (scopes_of table.now) (line_at table.now.lines.items at).spot)) }
{
    match table.lines[at].spot {
        Spot::Included(frame, resource, copy) => {
            tags_of_instance(alloc, table, frame, resource, copy)
        }
        Spot::Parameter(_, _) => Ok(Vec::new(alloc)),
        Spot::Variable(_, _) => Ok(Vec::new(alloc)),
        Spot::Offered(_, _) => Ok(Vec::new(alloc)),
        Spot::Output(_, _) => Ok(Vec::new(alloc)),
        Spot::Count(_, _) => Ok(Vec::new(alloc)),
        Spot::Name(_, _, _) => Ok(Vec::new(alloc)),
        Spot::Deployments(_) => Ok(Vec::new(alloc)),
    }
}

// The tags of all lines.
fn tags_of_lines(alloc: Global, table: &Table) -> Result<Vec<Vec<Vec<usize>>>, OutOfMemory>
    requires table { IsStartTable table.now }
    ensures { IfOk result (λ v. tags_in v.items
        ≡ map (row_tags (whole_of table.now) (start_of table.now)) (rows_in table.now)) }
{
    let mut all = Vec::new(alloc);
    'lines: for at in 0..table.lines.len() {
        let tags = tags_of_line(alloc, table, at)?;
        all.push(tags)?;
    }
    Ok(all)
}

// The instance of a line; none where the line is no condition of one.
fn instance_of(table: &Table, at: usize) -> Option<Opener>
    requires listed { at < length table.now.lines.items }
    ensures some { MatchOption result (Unit {0}) (λ x. (line_at table.now.lines.items at).spot
        ≡ spot.Included x.frame x.resource x.copy) }
    ensures none { MatchOption result ((f r i : ℕ) → (line_at table.now.lines.items at).spot ≡ spot.Included f r i → ⊥)
        (λ _. Unit {0}) }
{
    match table.lines[at].spot {
        Spot::Included(frame, resource, copy) => Some(Opener {
            frame,
            resource,
            copy,
        }),
        Spot::Parameter(_, _) => None,
        Spot::Variable(_, _) => None,
        Spot::Offered(_, _) => None,
        Spot::Output(_, _) => None,
        Spot::Count(_, _) => None,
        Spot::Name(_, _, _) => None,
        Spot::Deployments(_) => None,
    }
}

/// Two instances that are put and have one key; none exactly where no two have one.
pub fn find_same_put(alloc: Global, table: &Table) -> Result<Option<(Opener, Opener)>, OutOfMemory>
    requires table { IsStartTable table.now }
    ensures same { IfOk result (λ o. MatchOption o (Unit {0}) (λ p. AreSamePut table.now p.0 p.1)) }
    ensures apart { IfOk result (λ o. MatchOption o ((p : Position) (s : Step) (q : Position) (u : Step)
        → ShareKey (whole_of table.now) (start_world (start_of table.now)) p s q u → ⊥) (λ _. Unit {0})) }
{
    let tags = tags_of_lines(alloc, table)?;
    match find_shared(alloc, tags.as_slice())? {
        Some((first, second)) => match instance_of(table, first) {
            Some(first) => match instance_of(table, second) {
                Some(second) => Ok(Some((first, second))),
                None => unreachable!(),
            },
            None => unreachable!(),
        },
        None => Ok(None),
    }
}
