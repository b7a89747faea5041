// Paths to parts of trees, step by step from the innermost one outwards.
ghost use Rattle.std.specs.Prelude.{◌≡◌, ◌++◌, ◌∷◌, [], option_map, IfOk};
ghost use Rattle.reading.specs.Knowledge.{Known, told};
ghost use Rattle.arm_env.specs.Look.{Look, Fact};
ghost use Rattle.arm_env.specs.Answer.{Gives};
ghost use Rattle.missing_values.specs.Missing.{Missing, an_item, a_member, below, or_whole};
ghost use Rattle.missing_values.specs.Words.{step_of, path_of, path_found};

use arm_env::stop::{Stop, lacks_memory};
use arm_value::{OutOfMemory, Text};
use std::alloc::Global;

/// A step to a part of a tree.
#[derive(Drop)]
pub enum Step {
    /// To the member of the name, as it is spelled.
    Member(Text),
    /// To the item at the place, counted from 0.
    Item(usize),
}

// The path with one step more around it.
fn with_step(path: Vec<Step>, step: Step) -> Result<Vec<Step>, OutOfMemory>
    ensures { IfOk result (λ whole. path_of whole ≡ path_of path ++ step_of step ∷ []) }
{
    let mut path = path;
    path.push(step)?;
    Ok(path)
}

// The path with a step to a member around it.
fn with_member(alloc: Global, path: Vec<Step>, name: &Text) -> Result<Vec<Step>, OutOfMemory>
    ensures { IfOk result (λ whole. path_of whole ≡ path_of path ++ a_member name.now ∷ []) }
{
    match name.copy(alloc) {
        Ok(name) => with_step(path, Step::Member(name)),
        Err(_) => lacks_memory(path),
    }
}

// What is found in an item, seen from the array.
fn around_item(found: Option<Vec<Step>>, place: usize) -> Result<Option<Vec<Step>>, OutOfMemory>
    ensures { IfOk result (λ whole. path_found whole
        ≡ option_map (λ path. path ++ an_item place ∷ []) (path_found found)) }
{
    match found {
        Some(path) => Ok(Some(with_step(path, Step::Item(place))?)),
        None => Ok(None),
    }
}

// What is found in a member, seen from the object.
fn around_member(
    alloc: Global,
    found: Option<Vec<Step>>,
    name: &Text,
) -> Result<Option<Vec<Step>>, OutOfMemory>
    ensures { IfOk result (λ whole. path_found whole
        ≡ option_map (λ path. path ++ a_member name.now ∷ []) (path_found found)) }
{
    match found {
        Some(path) => Ok(Some(with_member(alloc, path, name)?)),
        None => Ok(None),
    }
}

/// What is found in an item, seen from the array.
pub(crate) fn below_item(
    found: Result<Option<Vec<Step>>, Stop>,
    place: usize,
) -> Result<Option<Vec<Step>>, Stop>
    ensures { (p : Look → Known Fact) (o : Missing) → Gives path_found found (told p o)
        → Gives path_found result (told p (below (an_item place) o)) }
{
    match found {
        Ok(found) => Ok(around_item(found, place)?),
        Err(stop) => Err(stop),
    }
}

/// What is found in a member, seen from the object.
pub(crate) fn below_member(
    alloc: Global,
    found: Result<Option<Vec<Step>>, Stop>,
    name: &Text,
) -> Result<Option<Vec<Step>>, Stop>
    ensures { (p : Look → Known Fact) (o : Missing) → Gives path_found found (told p o)
        → Gives path_found result (told p (below (a_member name.now) o)) }
{
    match found {
        Ok(found) => Ok(around_member(alloc, found, name)?),
        Err(stop) => Err(stop),
    }
}

/// The path to a part, or to the whole.
pub(crate) fn or_whole(alloc: Global, found: Option<Vec<Step>>) -> Vec<Step>
    ensures { path_of result ≡ or_whole (path_found found) }
{
    match found {
        Some(path) => path,
        None => Vec::new(alloc),
    }
}
