// The tags of deletes, and those for which they ask.
ghost use Rattle.std.specs.Prelude.{◌≡◌, ◌∷◌, ◌++◌, [], IfOk};
ghost use Rattle.key_tags.specs.KeyCodes.{key_code, parent_parts};
ghost use Rattle.tag_needs.specs.Tags.{tags_of, tags_in};
ghost use Rattle.plan_cells.specs.Tasks.{delete};
ghost use Rattle.name_tags.specs.TaskCodes.{task_tags, task_asks};
ghost use Rattle.plan_table.specs.Whole.{whole_of, scopes_of};
ghost use Rattle.plan_tasks.specs.Start.{start_of};
ghost use Rattle.plan_needs.specs.Numbers.{number_in};
ghost use Rattle.plan_needs.specs.Order.{left_code};
ghost use Rattle.plan_needs.specs.Lists.{tags_of_deletes, asks_of_deletes};
ghost use Rattle.plan_table.specs.declared.table.Table.{Table};

use crate::order::push_left;
use arm_ids::Key;
use arm_value::OutOfMemory;
use key_tags::{key_tag, parent_tag};
use std::alloc::Global;

// The tag that a child of what is at a key is deleted, by the numbers of the key.
fn child_tag(alloc: Global, key: &[usize]) -> Result<Vec<usize>, OutOfMemory>
    ensures { IfOk result (λ t. t.items ≡ 4 ∷ key.now) }
{
    let mut tag = Vec::new(alloc);
    tag.push(4)?;
    for number in key {
        tag.push(*number)?;
    }
    Ok(tag)
}

// Lists that a child of what is at a key is deleted, by the numbers of the key.
fn push_child(alloc: Global, tags: &mut Vec<Vec<usize>>, key: &[usize]) -> Result<(), OutOfMemory>
    ensures { IfOk result (λ _. tags_of tags.new ≡ tags_of tags.old ++ (4 ∷ key.now) ∷ []) }
{
    let tag = child_tag(alloc, key)?;
    tags.push(tag)?;
    Ok(())
}

// The tag of a delete: that a child of what is above the key is deleted.
fn delete_tags(alloc: Global, key: &Key) -> Result<Vec<Vec<usize>>, OutOfMemory>
    ensures { IfOk result (λ v. (t : Table) → tags_of v ≡ task_tags (whole_of t) (number_in (scopes_of t)) (start_of t)
        (delete key.now)) }
{
    let _parts = key.parts();
    let numbers = parent_tag(alloc, key)?;
    let mut tags = Vec::new(alloc);
    push_child(alloc, &mut tags, numbers.as_slice())?;
    Ok(tags)
}

// Those for which a delete asks: that the root is left, and that children of what is at the key are deleted.
fn delete_asks(alloc: Global, key: &Key) -> Result<Vec<Vec<usize>>, OutOfMemory>
    ensures { IfOk result (λ v. (t : Table) → tags_of v ≡ task_asks (whole_of t) (number_in (scopes_of t))
        (delete key.now) []) }
{
    let numbers = key_tag(alloc, key)?;
    let mut asks = Vec::new(alloc);
    push_left(alloc, &mut asks)?;
    push_child(alloc, &mut asks, numbers.as_slice())?;
    Ok(asks)
}

/// Lists the tags of deletes last.
pub fn push_delete_tags(
    alloc: Global,
    all: &mut Vec<Vec<Vec<usize>>>,
    keys: &[Key],
) -> Result<(), OutOfMemory>
    ensures { IfOk result (λ _. (t : Table) → tags_in all.new.items
        ≡ tags_in all.old.items ++ tags_of_deletes t keys.now) }
{
    for key in keys {
        let tags = delete_tags(alloc, key)?;
        all.push(tags)?;
    }
    Ok(())
}

/// Lists those for which deletes ask last.
pub fn push_delete_asks(
    alloc: Global,
    all: &mut Vec<Vec<Vec<usize>>>,
    keys: &[Key],
) -> Result<(), OutOfMemory>
    ensures { IfOk result (λ _. (t : Table) → tags_in all.new.items
        ≡ tags_in all.old.items ++ asks_of_deletes t keys.now) }
{
    for key in keys {
        let asks = delete_asks(alloc, key)?;
        all.push(asks)?;
    }
    Ok(())
}
