// Searches for parts that read a text once. The time is linear in the text and the part.
ghost use Rattle.std.specs.Prelude.{◌≡◌, ◌<◌, ◌-◌, ◌+◌, ℕ, List, IfOk, length, get_or, true, false, drop};
ghost use Rattle.function_lists.specs.Items.{or_found, here};
ghost use Rattle.function_texts.specs.Places.{first_from, last_from};
ghost use Rattle.function_texts.specs.Search.{AreBorders, HasAt, IsNext, IsFirst, IsLastBegun};

use arm_value::OutOfMemory;
use std::alloc::Global;

// Whether the part has the character at the place.
fn has_at(part: &[char], place: usize, character: char) -> bool
    ensures yes { result ≡ true → HasAt part.now place character }
    ensures no { result ≡ false → HasAt part.now place character → ⊥ }
{
    place < part.len() && part[place] == character
}

/// How many characters of the part end with the one that is read, where so many ended before it.
pub fn next_length(part: &[char], borders: &[usize], before: usize, character: char) -> usize
    requires borders { AreBorders part.now borders.now }
    requires known { before < length borders.now }
    ensures { IsNext part.now before character result }
{
    let mut length = before;
    'shorter: while !has_at(part, length, character) {
        if length == 0 {
            return 0;
        }
        length = borders[length];
    }
    length + 1
}

/// The borders of the part, at each count of its characters from 1 on.
pub fn borders_of(alloc: Global, part: &[char]) -> Result<Vec<usize>, OutOfMemory>
    ensures borders { IfOk result (λ borders. AreBorders part.now borders.items) }
    ensures enough { IfOk result (λ borders. length part.now < length borders.items) }
{
    let mut borders = vec![in alloc; 0, 0]?;
    for i in 1..part.len() {
        let known = borders.as_slice();
        let length = next_length(part, known, known[i], part[i]);
        borders.push(length)?;
    }
    Ok(borders)
}

/// The least place at which the part begins.
pub fn first_with(part: &[char], borders: &[usize], text: &[char]) -> Option<usize>
    requires borders { AreBorders part.now borders.now }
    requires enough { length part.now < length borders.now }
    ensures { IsFirst part.now text.now result }
{
    if part.is_empty() {
        return Some(0);
    }
    let mut length = 0usize;
    for i in 0..text.len() {
        length = next_length(part, borders, length, text[i]);
        if length == part.len() {
            return Some(i + 1 - length);
        }
    }
    None
}

/// The least place at which the characters go on with the part, counted from 0.
pub fn first_part(alloc: Global, part: &[char], text: &[char]) -> Result<Option<usize>, OutOfMemory>
    ensures { IfOk result (λ found. found ≡ first_from 0 part.now text.now) }
{
    let borders = borders_of(alloc, part)?;
    Ok(first_with(part, borders.as_slice(), text))
}

// The place, where it passes, else what was found before.
fn here_or(passes: bool, place: usize, found: Option<usize>) -> Option<usize>
    ensures { result ≡ or_found (here passes place) found }
{
    if passes { Some(place) } else { found }
}

// The greatest place at which the part begins.
fn last_with(part: &[char], borders: &[usize], text: &[char]) -> Option<usize>
    requires borders { AreBorders part.now borders.now }
    requires enough { length part.now < length borders.now }
    ensures { IsLastBegun part.now text.now (length text.now) result }
{
    if part.is_empty() {
        return Some(text.len());
    }
    let mut length = 0usize;
    let mut found = None;
    for i in 0..text.len() {
        length = next_length(part, borders, length, text[i]);
        found = here_or(length == part.len(), i + 1 - length, found);
    }
    found
}

/// The greatest place at which the characters go on with the part, counted from 0.
pub fn last_part(alloc: Global, part: &[char], text: &[char]) -> Result<Option<usize>, OutOfMemory>
    ensures { IfOk result (λ found. found ≡ last_from 0 part.now text.now) }
{
    let borders = borders_of(alloc, part)?;
    Ok(last_with(part, borders.as_slice(), text))
}
