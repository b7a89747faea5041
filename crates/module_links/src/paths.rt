// Which file a path names, which is written in another file.
ghost use Rattle.std.specs.Prelude.{◌≡◌, ◌++◌, ◌∷◌, chars, string_bytes, Some, None, IfOk, OnOk, IsTrue, bytes_eq};
ghost use Rattle.std.specs.Prelude.{nat_lt, if◌then◌else◌};
ghost use Rattle.std.specs.List.{list_all};
ghost use Rattle.arm_ids.specs.Segments.{joined, slashed};
ghost use Rattle.module_links.specs.Paths.{folder_of, parent, entered, walked, is_name, named_in, file_at};

use arm_ids::segments;
use arm_value::{OutOfMemory, Text};
use std::alloc::Global;

// Whether the text is the word, which is of ASCII characters.
fn is_word(text: &Text, word: &str) -> bool
    requires { IsTrue (list_all (λ b. nat_lt b 128) word.now) }
    ensures { result ≡ bytes_eq word.now text.now }
{
    text.equals(word)
}

// Adds a slash and the segment.
fn push_segment(text: &mut String, segment: &str) -> Result<(), OutOfMemory>
    ensures { OnOk result (chars (string_bytes text.new)
        ≡ chars (string_bytes text.old) ++ 47 ∷ chars segment.now) }
{
    text.push('/')?;
    text.push_str(segment)?;
    Ok(())
}

// Adds a slash and the segment, for each of these.
fn push_segments(text: &mut String, segments: &[Text]) -> Result<(), OutOfMemory>
    ensures { OnOk result (chars (string_bytes text.new)
        ≡ chars (string_bytes text.old) ++ slashed segments.now) }
{
    for segment in segments {
        push_segment(text, segment.as_str())?;
    }
    Ok(())
}

// The segments as one text, with a slash between each two.
fn joined(alloc: Global, segments: &[Text]) -> Result<Text, OutOfMemory>
    ensures { IfOk result (λ t. t ≡ joined segments.now) }
{
    let [first, others @ ..] = segments else {
        return Text::of(alloc, "");
    };
    let mut text = String::from_str(alloc, first.as_str())?;
    push_segments(&mut text, others)?;
    Ok(Text::from_string(text))
}

// Goes to the folder around a folder, where there is one.
fn leave(folder: &mut Vec<Text>) -> bool
    ensures { parent folder.old.items ≡ (if result then Some folder.new.items else None) }
{
    folder.pop().is_some()
}

// Goes to the folder that a segment leads to, where there is one.
#[tactic(auto, unfolding(crate::specs::Paths::entered))]
fn enter(alloc: Global, folder: &mut Vec<Text>, step: &Text) -> Result<bool, OutOfMemory>
    ensures { IfOk result (λ led. entered folder.old.items step.now
        ≡ (if led then Some folder.new.items else None)) }
{
    if is_word(step, ".") {
        return Ok(true);
    }
    if is_word(step, "..") {
        return Ok(leave(folder));
    }
    if step.is_empty() {
        return Ok(false);
    }
    folder.push(step.copy(alloc)?)?;
    Ok(true)
}

// Goes to the folder that these segments lead to, where there is one.
fn walk(alloc: Global, folder: &mut Vec<Text>, steps: &[Text]) -> Result<bool, OutOfMemory>
    ensures { IfOk result (λ led. walked folder.old.items steps.now
        ≡ (if led then Some folder.new.items else None)) }
{
    for step in steps {
        match enter(alloc, folder, step) {
            Ok(true) => {}
            Ok(false) => return Ok(false),
            Err(fault) => return Err(fault),
        }
    }
    Ok(true)
}

// Whether a segment may be the name of a file.
#[tactic(auto, unfolding(crate::specs::Paths::is_name))]
fn is_name(name: &Text) -> bool
    ensures { result ≡ is_name name.now }
{
    if is_word(name, ".") {
        return false;
    }
    if is_word(name, "..") {
        return false;
    }
    !name.is_empty()
}

// The name of the file of that name in the folder that these segments lead to, where there is one.
fn named_in(
    alloc: Global,
    folder: &mut Vec<Text>,
    steps: &[Text],
    name: &Text,
) -> Result<Option<Text>, OutOfMemory>
    ensures { IfOk result (λ o. o ≡ named_in name.now (walked folder.old.items steps.now)) }
{
    if !is_name(name) {
        return Ok(None);
    }
    match walk(alloc, folder, steps) {
        Ok(true) => {
            folder.push(name.copy(alloc)?)?;
            Ok(Some(joined(alloc, folder.as_slice())?))
        }
        Ok(false) => Ok(None),
        Err(fault) => Err(fault),
    }
}

// The folder in which a file is.
fn folder_of(alloc: Global, file: &str) -> Result<Vec<Text>, OutOfMemory>
    ensures { IfOk result (λ folder. folder.items ≡ folder_of (chars file.now)) }
{
    let mut folder = segments(alloc, file)?.into_vec();
    let _own = folder.pop();
    Ok(folder)
}

/// The name of the file that a path names in a file of that name, where the path stays in the folder of all files.
///
/// A name goes from that folder on: its segments, with a slash between each two. Only `/` separates segments. An
/// empty segment names nothing, and the last segment of a path is neither `.` nor `..`.
#[tactic(auto, unfolding(crate::specs::Paths::file_at))]
pub fn file_at(alloc: Global, file: &str, path: &str) -> Result<Option<Text>, OutOfMemory>
    ensures { IfOk result (λ o. o ≡ file_at (chars file.now) (chars path.now)) }
{
    let mut folder = folder_of(alloc, file)?;
    let steps = segments(alloc, path)?;
    match steps.as_slice().split_last() {
        Some((name, steps)) => named_in(alloc, &mut folder, steps, name),
        None => Ok(None),
    }
}
