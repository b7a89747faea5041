// The numbers of those that have each tag.
ghost use Rattle.std.specs.Prelude.{◌≡◌, ◌++◌, ◌∷◌, [], ℕ, List, map, bytes_eq, IfOk, if◌then◌else◌, None};
ghost use Rattle.std.specs.BTreeMap.{UpdatesBy};
ghost use Rattle.std.specs.Ordering.{nat_cmp};
ghost use Rattle.std.specs.Cmp.Lexicographic.{slice_cmp};
ghost use Rattle.tag_needs.specs.Tags.{tags_in};
ghost use Rattle.tag_needs.specs.Numbers.{numbers_at, times_listed, AreNumbers, tag_cmp};

use arm_value::OutOfMemory;
use std::alloc::Global;
use std::collections::BTreeMap;

/// For each tag the numbers of those that have it.
pub type Numbers<'a> = BTreeMap<&'a [usize], Vec<usize>>;

// Takes the numbers that are listed at the tag away.
fn take_numbers<'a>(alloc: Global, numbers: &mut Numbers<'a>, tag: &'a [usize]) -> Vec<usize>
    ensures taken { result.items ≡ numbers_at numbers.old tag.now }
    ensures away { UpdatesBy tag_cmp (λ k. slice_cmp nat_cmp tag.now k.now) numbers.old numbers.new None }
{
    match numbers.remove(&tag) {
        Some(list) => list,
        None => Vec::new(alloc),
    }
}

// Lists the number last among those that have the tag.
fn list_tag<'a>(
    alloc: Global,
    numbers: &mut Numbers<'a>,
    tag: &'a [usize],
    number: usize,
) -> Result<(), OutOfMemory>
    ensures { IfOk result (λ _. (t : List ℕ) → numbers_at numbers.new t
        ≡ numbers_at numbers.old t ++ (if bytes_eq t tag.now then number ∷ [] else [])) }
{
    let mut list = take_numbers(alloc, numbers, tag);
    list.push(number)?;
    numbers.insert(tag, list)?;
    Ok(())
}

// Lists the number last among those that have one of these tags.
fn list_tags<'a>(
    alloc: Global,
    numbers: &mut Numbers<'a>,
    tags: &'a [Vec<usize>],
    number: usize,
) -> Result<(), OutOfMemory>
    ensures { IfOk result (λ _. (t : List ℕ) → numbers_at numbers.new t
        ≡ numbers_at numbers.old t ++ times_listed t number (map (λ u. u.items) tags.now)) }
{
    for tag in tags {
        list_tag(alloc, numbers, tag.as_slice(), number)?;
    }
    Ok(())
}

/// For each tag the numbers of those that have it.
pub fn number_tags<'a>(
    alloc: Global,
    tags: &'a [Vec<Vec<usize>>],
) -> Result<Numbers<'a>, OutOfMemory>
    ensures { IfOk result (λ m. AreNumbers m (tags_in tags.now)) }
{
    let mut numbers = BTreeMap::new(alloc);
    for number in 0..tags.len() {
        list_tags(alloc, &mut numbers, tags[number].as_slice(), number)?;
    }
    Ok(numbers)
}
