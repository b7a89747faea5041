// Tags by the scopes that are entered and left.
ghost use Rattle.std.specs.Prelude.{◌≡◌, ◌∷◌, ◌++◌, [], IfOk};
ghost use Rattle.tag_needs.specs.Tags.{tags_of};
ghost use Rattle.plan_needs.specs.Order.{entry_code, inside_code, left_code};

use arm_value::OutOfMemory;
use std::alloc::Global;

// A tag of this sort, with a number.
fn short_tag(alloc: Global, sort: usize, number: usize) -> Result<Vec<usize>, OutOfMemory>
    ensures { IfOk result (λ t. t.items ≡ sort ∷ number ∷ []) }
{
    let mut tag = Vec::new(alloc);
    tag.push(sort)?;
    tag.push(number)?;
    Ok(tag)
}

/// Lists that the scope of this number is entered.
pub fn push_entry(
    alloc: Global,
    tags: &mut Vec<Vec<usize>>,
    scope: usize,
) -> Result<(), OutOfMemory>
    ensures { IfOk result (λ _. tags_of tags.new ≡ tags_of tags.old ++ entry_code scope ∷ []) }
{
    let tag = short_tag(alloc, 0, scope)?;
    tags.push(tag)?;
    Ok(())
}

/// Lists that it is a task of the scope of this number.
pub fn push_inside(
    alloc: Global,
    tags: &mut Vec<Vec<usize>>,
    scope: usize,
) -> Result<(), OutOfMemory>
    ensures { IfOk result (λ _. tags_of tags.new ≡ tags_of tags.old ++ inside_code scope ∷ []) }
{
    let tag = short_tag(alloc, 1, scope)?;
    tags.push(tag)?;
    Ok(())
}

/// Lists that the root is left.
pub fn push_left(alloc: Global, tags: &mut Vec<Vec<usize>>) -> Result<(), OutOfMemory>
    ensures { IfOk result (λ _. tags_of tags.new ≡ tags_of tags.old ++ left_code ∷ []) }
{
    let mut tag = Vec::new(alloc);
    tag.push(3)?;
    tags.push(tag)?;
    Ok(())
}
