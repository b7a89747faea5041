// For each tag the first place.
ghost use Rattle.std.specs.Prelude.{◌≡◌, ◌++◌, ◌∷◌, [], List, Option, Some, length, IfOk, IfErr};
ghost use Rattle.tag_places.specs.Places.{Tag, first_place, ArePlaces};

use arm_value::OutOfMemory;
use std::alloc::Global;
use std::collections::BTreeMap;

/// For each tag the first place that has it.
pub type Places = BTreeMap<Vec<usize>, usize>;

/// The places of no list.
pub fn no_places(alloc: Global) -> Places
    ensures { ArePlaces result [] }
{
    BTreeMap::new(alloc)
}

/// The first place of a tag, where there is one.
pub fn first_place(places: &Places, tag: &Vec<usize>) -> Option<usize>
    ensures { (os : List (Option Tag)) → ArePlaces places.now os → result ≡ first_place tag.now.items os }
{
    places.get(tag).copied()
}

// The place has the tag, which had none. After `OutOfMemory` the places are unchanged.
fn insert_place(places: &mut Places, tag: Vec<usize>, place: usize) -> Result<(), OutOfMemory>
    ensures added { (os : List (Option Tag)) → ArePlaces places.old os → place ≡ length os
        → first_place tag.items os ≡ None → IfOk result (λ _. ArePlaces places.new (os ++ Some tag.items ∷ [])) }
    ensures unchanged { (os : List (Option Tag)) → ArePlaces places.old os
        → IfErr result (λ _. ArePlaces places.new os) }
{
    places.insert(tag, place)?;
    Ok(())
}

/// The place that comes next has the tag. After `OutOfMemory` the places are unchanged.
pub fn add_place(places: &mut Places, tag: Vec<usize>, place: usize) -> Result<(), OutOfMemory>
    ensures added { (os : List (Option Tag)) → ArePlaces places.old os → place ≡ length os
        → IfOk result (λ _. ArePlaces places.new (os ++ Some tag.items ∷ [])) }
    ensures unchanged { (os : List (Option Tag)) → ArePlaces places.old os
        → IfErr result (λ _. ArePlaces places.new os) }
{
    match first_place(places, &tag) {
        Some(_) => Ok(()),
        None => insert_place(places, tag, place),
    }
}
