// Two that share a tag.
ghost use Rattle.std.specs.Prelude.{◌≡◌, ◌<◌, ℕ, map, nat_eq, false, true, IfOk, MatchOption};
ghost use Rattle.std.specs.List.{list_any};
ghost use Rattle.tag_needs.specs.Tags.{tags_in, IsShared};
ghost use Rattle.tag_needs.specs.Numbers.{numbers_at, is_listed_at};

use crate::numbers::{Numbers, number_tags};
use arm_value::OutOfMemory;
use std::alloc::Global;

// The first of these numbers that is above another.
fn find_above(numbers: &[usize], number: usize) -> Option<usize>
    ensures some { MatchOption result (Unit {0}) (λ j. (number < j) × (list_any (nat_eq j) numbers.now ≡ true)) }
    ensures none { MatchOption result ((j : ℕ) → number < j → list_any (nat_eq j) numbers.now ≡ false)
        (λ _. Unit {0}) }
{
    for other in numbers {
        if *other > number {
            return Some(*other);
        }
    }
    None
}

// A number above another that is listed at the tag.
fn find_holder<'a>(numbers: &Numbers<'a>, tag: &'a [usize], number: usize) -> Option<usize>
    ensures some { MatchOption result (Unit {0})
        (λ j. (number < j) × (list_any (nat_eq j) (numbers_at numbers.now tag.now) ≡ true)) }
    ensures none { MatchOption result
        ((j : ℕ) → number < j → list_any (nat_eq j) (numbers_at numbers.now tag.now) ≡ false) (λ _. Unit {0}) }
{
    match numbers.get(&tag) {
        Some(holders) => find_above(holders, number),
        None => None,
    }
}

// A number above another that is listed at one of the tags.
fn find_other<'a>(numbers: &Numbers<'a>, tags: &'a [Vec<usize>], number: usize) -> Option<usize>
    ensures some { MatchOption result (Unit {0})
        (λ j. (number < j) × (is_listed_at numbers.now j (map (λ t. t.items) tags.now) ≡ true)) }
    ensures none { MatchOption result
        ((j : ℕ) → number < j → is_listed_at numbers.now j (map (λ t. t.items) tags.now) ≡ false) (λ _. Unit {0}) }
{
    for tag in tags {
        match find_holder(numbers, tag.as_slice(), number) {
            Some(other) => return Some(other),
            None => {}
        }
    }
    None
}

/// The numbers of two that share a tag, the lower one first; none exactly where no two share one.
pub fn find_shared<'a>(
    alloc: Global,
    tags: &'a [Vec<Vec<usize>>],
) -> Result<Option<(usize, usize)>, OutOfMemory>
    ensures shared { IfOk result (λ o. MatchOption o (Unit {0}) (λ p. IsShared (tags_in tags.now) p.0 p.1)) }
    ensures apart { IfOk result (λ o. MatchOption o ((i j : ℕ) → IsShared (tags_in tags.now) i j → ⊥)
        (λ _. Unit {0})) }
{
    let numbers = number_tags(alloc, tags)?;
    for number in 0..tags.len() {
        match find_other(&numbers, tags[number].as_slice(), number) {
            Some(other) => return Ok(Some((number, other))),
            None => {}
        }
    }
    Ok(None)
}
