// For each tag who has it.
ghost use Rattle.std.specs.Prelude.{◌≡◌, ℕ, List, map, bytes_eq, IfOk, Some, if◌then◌else◌};
ghost use Rattle.tag_needs.specs.Tags.{tags_in};
ghost use Rattle.tag_holders.specs.Holders.{class_at, classes_in, found_at, joined, found_with, AreKept};
ghost use Rattle.tag_holders.specs.Holders.{found_by};
ghost use Rattle.tag_holders.specs.declared.holders.Found.TheVariants.{Alike};

use arm_value::OutOfMemory;
use std::alloc::Global;
use std::collections::BTreeMap;

/// Of which things something is true.
#[derive(Clone, Copy)]
pub enum Found {
    /// Of things of one class; this is one of them.
    Alike(usize),
    /// Of these two, which are of different classes, and maybe of others.
    Differing(usize, usize),
}

/// For each tag who has it.
pub type Holders<'a> = BTreeMap<&'a [usize], Found>;

// The class of a thing.
fn class_at(classes: &[Vec<usize>], number: usize) -> &[usize]
    ensures { result.now ≡ class_at (classes_in classes.now) number }
{
    match classes.get(number) {
        Some(class) => class.as_slice(),
        None => &[],
    }
}

// Of things of one class, or of two things of different classes.
fn found_by(classes: &[Vec<usize>], first: usize, second: usize) -> Found
    ensures { result ≡ found_by (bytes_eq (class_at (classes_in classes.now) first)
        (class_at (classes_in classes.now) second)) first second }
{
    if class_at(classes, first) == class_at(classes, second) {
        Found::Alike(first)
    } else {
        Found::Differing(first, second)
    }
}

// Of things of one class, or of two things of different classes, where it is true of one thing and of those found.
fn joined_to(classes: &[Vec<usize>], first: usize, found: Option<Found>) -> Found
    ensures { Some result ≡ joined (classes_in classes.now) (Some (Alike first)) found }
{
    match found {
        Some(Found::Alike(second)) => found_by(classes, first, second),
        Some(Found::Differing(second, third)) => Found::Differing(second, third),
        None => Found::Alike(first),
    }
}

/// Of which things the one or the other is true.
pub fn joined(classes: &[Vec<usize>], one: Option<Found>, other: Option<Found>) -> Option<Found>
    ensures { result ≡ joined (classes_in classes.now) one other }
{
    match one {
        Some(Found::Alike(first)) => Some(joined_to(classes, first, other)),
        Some(Found::Differing(first, second)) => Some(Found::Differing(first, second)),
        None => other,
    }
}

// Notes that a thing has a tag.
fn note_tag<'a>(
    holders: &mut Holders<'a>,
    classes: &[Vec<usize>],
    tag: &'a [usize],
    number: usize,
) -> Result<(), OutOfMemory>
    ensures { IfOk result (λ _. (t : List ℕ) → found_at holders.new t ≡ (if bytes_eq t tag.now
        then joined (classes_in classes.now) (found_at holders.old t) (Some (Alike number))
        else found_at holders.old t)) }
{
    let known = holders.get(&tag).copied();
    match joined(classes, known, Some(Found::Alike(number))) {
        Some(found) => {
            holders.insert(tag, found)?;
        }
        None => {}
    }
    Ok(())
}

// Notes the tags of a thing.
fn note_tags<'a>(
    holders: &mut Holders<'a>,
    classes: &[Vec<usize>],
    tags: &'a [Vec<usize>],
    number: usize,
) -> Result<(), OutOfMemory>
    ensures { IfOk result (λ _. (t : List ℕ) → found_at holders.new t
        ≡ found_with (classes_in classes.now) t (found_at holders.old t) number (map (λ u. u.items) tags.now)) }
{
    for tag in tags {
        note_tag(holders, classes, tag.as_slice(), number)?;
    }
    Ok(())
}

/// For each tag which of these things have it, whose classes are these.
pub fn holders_of<'a>(
    alloc: Global,
    tags: &'a [Vec<Vec<usize>>],
    classes: &[Vec<usize>],
) -> Result<Holders<'a>, OutOfMemory>
    ensures { IfOk result (λ m. AreKept m (tags_in tags.now) (classes_in classes.now)) }
{
    let mut holders = BTreeMap::new(alloc);
    for number in 0..tags.len() {
        note_tags(&mut holders, classes, tags[number].as_slice(), number)?;
    }
    Ok(holders)
}
