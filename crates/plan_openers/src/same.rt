// Two nested deployments of one scope that have one key.
ghost use Rattle.std.specs.Prelude.{◌≡◌, ◌∷◌, ◌<◌, ◌++◌, [], IfOk, MatchOption, length, map, option_map};
ghost use Rattle.deploy_cells.specs.Cells.{Step, step, Position};
ghost use Rattle.key_tags.specs.KeyCodes.{key_code};
ghost use Rattle.tag_needs.specs.Tags.{tags_of, tags_in};
ghost use Rattle.plan_cells.specs.Start.{start_world};
ghost use Rattle.plan_cells.specs.Reads.{key_in};
ghost use Rattle.plan_table.specs.Whole.{whole_of, scopes_of};
ghost use Rattle.plan_table.specs.Found.{scope_at};
ghost use Rattle.plan_refusals.specs.Start.{start_of, IsStartTable, IsInstance};
ghost use Rattle.plan_refusals.specs.Keys.{ShareNestedKey};
ghost use Rattle.plan_openers.specs.SameNested.{keyed_tags, scope_tags, AreSameNested};

use crate::opener::{Opener, opener_of};
use arm_ids::Key;
use arm_value::OutOfMemory;
use key_tags::key_tag;
use plan_refusals::key_at;
use plan_table::table::Table;
use std::alloc::Global;
use tag_needs::find_shared;

// A number before others.
fn numbered(alloc: Global, first: usize, numbers: &[usize]) -> Result<Vec<usize>, OutOfMemory>
    ensures { IfOk result (λ t. t.items ≡ first ∷ numbers.now) }
{
    let mut tag = Vec::new(alloc);
    tag.push(first)?;
    for number in numbers {
        tag.push(*number)?;
    }
    Ok(tag)
}

// The one tag of a nested deployment of the scope of this number; none without a key.
fn tags_by_key(
    alloc: Global,
    around: usize,
    key: &Option<Key>,
) -> Result<Vec<Vec<usize>>, OutOfMemory>
    ensures { IfOk result (λ v. tags_of v ≡ keyed_tags around key.now) }
{
    let mut tags = Vec::new(alloc);
    match key {
        Some(key) => {
            let numbers = key_tag(alloc, key)?;
            let tag = numbered(alloc, around, numbers.as_slice())?;
            tags.push(tag)?;
        }
        None => {}
    }
    Ok(tags)
}

// The tags of the scope that an instance opened.
fn tags_of_opener(
    alloc: Global,
    table: &Table,
    opener: Opener,
) -> Result<Vec<Vec<usize>>, OutOfMemory>
    requires table { IsStartTable table.now }
    requires instance { IsInstance table.now opener.frame opener.resource opener.copy }
    ensures { IfOk result (λ v. tags_of v ≡ keyed_tags opener.frame (key_in (whole_of table.now)
        (start_world (start_of table.now)) (scope_at table.now opener.frame).position
        (step opener.resource opener.copy))) }
{
    let key = key_at(alloc, table, opener.frame, opener.resource, opener.copy)?;
    tags_by_key(alloc, opener.frame, &key)
}

// The tags of a scope: the root has none, each other one.
fn tags_of_scope(alloc: Global, table: &Table, frame: usize) -> Result<Vec<Vec<usize>>, OutOfMemory>
    requires table { IsStartTable table.now }
    requires there { frame < length table.now.frames.items }
    ensures { IfOk result (λ v. tags_of v
        ≡ scope_tags (whole_of table.now) (start_of table.now) (scope_at table.now frame)) }
{
    match opener_of(table, frame) {
        Some(opener) => tags_of_opener(alloc, table, opener),
        None => Ok(Vec::new(alloc)),
    }
}

// The tags of all scopes.
fn list_scope_tags(alloc: Global, table: &Table) -> Result<Vec<Vec<Vec<usize>>>, OutOfMemory>
    requires table { IsStartTable table.now }
    ensures { IfOk result (λ v. tags_in v.items
        ≡ map (scope_tags (whole_of table.now) (start_of table.now)) (scopes_of table.now)) }
{
    let mut all = Vec::new(alloc);
    'frames: for frame in 0..table.frames.len() {
        let tags = tags_of_scope(alloc, table, frame)?;
        all.push(tags)?;
    }
    Ok(all)
}

/// The numbers of the frames of two nested deployments of one scope that have one key; none exactly where no two do.
pub fn find_same_nested(alloc: Global, table: &Table) -> Result<Option<(usize, usize)>, OutOfMemory>
    requires table { IsStartTable table.now }
    ensures same { IfOk result (λ o. MatchOption o (Unit {0}) (λ p. AreSameNested table.now p.0 p.1)) }
    ensures apart { IfOk result (λ o. MatchOption o ((p : Position) (s u : Step)
        → ShareNestedKey (whole_of table.now) (start_world (start_of table.now)) p s u → ⊥) (λ _. Unit {0})) }
{
    let tags = list_scope_tags(alloc, table)?;
    let found = find_shared(alloc, tags.as_slice())?;
    Ok(found)
}
