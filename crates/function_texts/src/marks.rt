// The places of a text at which delimiters begin.
ghost use Rattle.std.specs.Prelude.{◌≡◌, ◌<◌, ◌≤◌, ◌-◌, ◌+◌, ℕ, List, Option, Some, None, IfOk, OnOk, length, get_or};
ghost use Rattle.std.specs.Prelude.{set, map, true, IsNone};
ghost use Rattle.function_lists.specs.Items.{or_found};
ghost use Rattle.function_texts.specs.Cuts.{none_empty};
ghost use Rattle.function_texts.specs.Search.{AreBorders, AreMarks, AreMarked, IsNextMark};

use crate::search::{borders_of, next_length};
use arm_value::OutOfMemory;
use std::alloc::Global;

/// A place of a text where a delimiter begins, and the delimiter's length.
#[derive(Clone, Copy)]
pub struct Mark {
    pub place: usize,
    pub length: usize,
}

fn or_length(before: Option<usize>, length: usize) -> Option<usize>
    ensures { result ≡ or_found before (Some length) }
{
    match before {
        Some(before) => Some(before),
        None => Some(length),
    }
}

// Marks the place where the part began, if `ended`, the count of its characters that end before
// `read`, is all of them. A mark that is there stays.
fn mark_ended(marks: &mut [Option<usize>], whole: usize, read: usize, ended: usize)
    requires some { 0 < whole }
    requires fits { ended ≤ read }
    requires within { read ≤ length marks.now }
    ensures all { ended ≡ whole → marks.new
        ≡ set marks.old (read - whole) (or_found (get_or marks.old (read - whole) None) (Some whole)) }
    ensures fewer { ended < whole → marks.new ≡ marks.old }
{
    if ended < whole || read < whole {
        return;
    }
    let place = read - whole;
    marks[place] = or_length(marks[place], whole);
}

// Marks each place where the part begins and no mark is.
fn mark_with(part: &[char], borders: &[usize], text: &[char], marks: &mut [Option<usize>])
    requires borders { AreBorders part.now borders.now }
    requires enough { length part.now < length borders.now }
    requires some { 0 < length part.now }
    requires count { length marks.now ≡ length text.now }
    ensures { AreMarked part.now text.now marks.old marks.new }
{
    let mut length = 0usize;
    for i in 0..text.len() {
        length = next_length(part, borders, length, text[i]);
        mark_ended(marks, part.len(), i + 1, length);
    }
}

fn mark_part(
    alloc: Global,
    part: &[char],
    text: &[char],
    marks: &mut [Option<usize>],
) -> Result<(), OutOfMemory>
    requires some { 0 < length part.now }
    requires count { length marks.now ≡ length text.now }
    ensures marked { OnOk result (AreMarked part.now text.now marks.old marks.new) }
    ensures stays { length marks.new ≡ length marks.old }
{
    let borders = borders_of(alloc, part)?;
    mark_with(part, borders.as_slice(), text, marks);
    Ok(())
}

/// At each place of the text the length of the first delimiter that begins there.
pub fn marks_of(
    alloc: Global,
    delimiters: &[Vec<char>],
    text: &[char],
) -> Result<Vec<Option<usize>>, OutOfMemory>
    requires { none_empty (map (λ d. d.items) delimiters.now) ≡ true }
    ensures { IfOk result (λ marks.
        AreMarks (map (λ d. d.items) delimiters.now) text.now marks.items) }
{
    let mut marks = vec![in alloc; None; text.len()]?;
    for delimiter in delimiters {
        mark_part(alloc, delimiter.as_slice(), text, &mut marks)?;
    }
    Ok(marks)
}

/// The first mark from a place on.
pub fn next_mark(marks: &[Option<usize>], from: usize) -> Option<Mark>
    ensures some { (mark : _) → result ≡ Some mark → IsNextMark marks.now from mark.place mark.length }
    ensures none { result ≡ None → (place : ℕ) → from ≤ place → get_or marks.now place None ≡ None }
{
    for place in from..marks.len() {
        if let Some(length) = marks[place] {
            return Some(Mark { place, length });
        }
    }
    None
}
