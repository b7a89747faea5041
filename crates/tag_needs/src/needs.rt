// Which thing needs which.
ghost use Rattle.std.specs.Prelude.{◌≡◌, ◌++◌, ◌||◌, ℕ, List, map, nat_eq, bytes_eq, IfOk};
ghost use Rattle.std.specs.List.{list_any};
ghost use Rattle.std.specs.Ordering.{nat_cmp};
ghost use Rattle.std.specs.BTreeSet.{contains, IsOrdered};
ghost use Rattle.tag_needs.specs.Tags.{tags_in, needed, pairs_of, needs_from};
ghost use Rattle.tag_needs.specs.Numbers.{numbers_at, is_in, AreNumbers, is_listed_at};

use crate::numbers::{Numbers, number_tags};
use arm_value::OutOfMemory;
use std::alloc::Global;
use std::collections::BTreeSet;

// The tags, each once.
fn each_once<'a>(
    alloc: Global,
    tags: &'a [Vec<usize>],
) -> Result<BTreeSet<&'a [usize]>, OutOfMemory>
    ensures { IfOk result (λ s. (t : List ℕ) → is_in s t ≡ list_any (bytes_eq t) (map (λ u. u.items) tags.now)) }
{
    let mut set = BTreeSet::new(alloc);
    for tag in tags {
        set.insert(tag.as_slice())?;
    }
    Ok(set)
}

// Puts these numbers into the set.
fn add_numbers(found: &mut BTreeSet<usize>, numbers: &[usize]) -> Result<(), OutOfMemory>
    ensures { IfOk result (λ _. (j : ℕ) → contains nat_cmp found.new j
        ≡ (contains nat_cmp found.old j || list_any (nat_eq j) numbers.now)) }
{
    for number in numbers {
        found.insert(*number)?;
    }
    Ok(())
}

// Puts the numbers that are listed at a tag into the set.
fn add_holders<'a>(
    found: &mut BTreeSet<usize>,
    numbers: &Numbers<'a>,
    tag: &'a [usize],
) -> Result<(), OutOfMemory>
    ensures { IfOk result (λ _. (j : ℕ) → contains nat_cmp found.new j
        ≡ (contains nat_cmp found.old j || list_any (nat_eq j) (numbers_at numbers.now tag.now))) }
{
    match numbers.get(&tag) {
        Some(holders) => add_numbers(found, holders),
        None => Ok(()),
    }
}

// Puts the numbers that are listed at one of the tags into the set.
fn add_all<'a>(
    found: &mut BTreeSet<usize>,
    numbers: &Numbers<'a>,
    tags: &BTreeSet<&'a [usize]>,
) -> Result<(), OutOfMemory>
    ensures { IfOk result (λ _. (j : ℕ) → contains nat_cmp found.new j
        ≡ (contains nat_cmp found.old j || is_listed_at numbers.now j (map (λ k. k.now) tags.now.keys))) }
{
    for tag in tags {
        add_holders(found, numbers, tag)?;
    }
    Ok(())
}

// The numbers of those that have a tag for which is asked.
fn find_needed<'a>(
    alloc: Global,
    numbers: &Numbers<'a>,
    asks: &'a [Vec<usize>],
) -> Result<BTreeSet<usize>, OutOfMemory>
    ensures { IfOk result (λ s. (j : ℕ) → contains nat_cmp s j
        ≡ is_listed_at numbers.now j (map (λ t. t.items) asks.now)) }
{
    let tags = each_once(alloc, asks)?;
    let mut found = BTreeSet::new(alloc);
    add_all(&mut found, numbers, &tags)?;
    Ok(found)
}

// Lists the pairs of a number with each of these last.
fn push_pairs(
    pairs: &mut Vec<(usize, usize)>,
    number: usize,
    needs: &BTreeSet<usize>,
) -> Result<(), OutOfMemory>
    ensures listed { IfOk result (λ _. pairs.new.items ≡ pairs.old.items ++ pairs_of number needs.now.keys) }
    ensures rising { IsOrdered nat_cmp needs.now }
{
    for need in needs {
        pairs.push((number, *need))?;
    }
    Ok(())
}

// Lists the pairs of one that asks and of what it needs last.
fn push_needs<'a>(
    alloc: Global,
    pairs: &mut Vec<(usize, usize)>,
    numbers: &Numbers<'a>,
    number: usize,
    asks: &'a [Vec<usize>],
) -> Result<(), OutOfMemory>
    ensures { IfOk result (λ _. (tags : List (List (List ℕ))) → AreNumbers numbers.now tags
        → pairs.new.items ≡ pairs.old.items ++ pairs_of number (needed (map (λ t. t.items) asks.now) 0 tags)) }
{
    let needs = find_needed(alloc, numbers, asks)?;
    push_pairs(pairs, number, &needs)?;
    Ok(())
}

/// Each pair of one that asks and of one that has a tag for which it asks, by their numbers: in order, and each once.
pub fn list_needs<'a>(
    alloc: Global,
    asks: &'a [Vec<Vec<usize>>],
    tags: &'a [Vec<Vec<usize>>],
) -> Result<Vec<(usize, usize)>, OutOfMemory>
    ensures { IfOk result (λ ns. ns.items ≡ needs_from 0 (tags_in asks.now) (tags_in tags.now)) }
{
    let numbers = number_tags(alloc, tags)?;
    let mut pairs = Vec::new(alloc);
    for number in 0..asks.len() {
        push_needs(alloc, &mut pairs, &numbers, number, asks[number].as_slice())?;
    }
    Ok(pairs)
}
