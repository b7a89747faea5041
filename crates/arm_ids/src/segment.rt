// The segments of a text: the parts between its slashes.
ghost use Rattle.std.specs.Prelude.{◌≡◌, ◌∷◌, ◌++◌, ◌↔◌, [], map, chars, string_bytes, IsTrue, IfOk, OnOk};
ghost use Rattle.std.specs.List.{list_any};
ghost use Rattle.arm_value.specs.Look.{fold};
ghost use Rattle.arm_ids.specs.Segments.{segments, slashed, is_empty, is_front, firsts, seconds};

use arm_value::{OutOfMemory, Text, Texts};
use std::alloc::Global;

/// The text with small letters in place of A to Z.
pub(crate) fn folded(alloc: Global, text: &str) -> Result<Text, OutOfMemory>
    ensures { IfOk result (λ t. t ≡ fold (chars text.now)) }
{
    let folded = text.to_ascii_lowercase(alloc)?;
    Ok(Text::from_string(folded))
}

/// Each of the texts with small letters in place of A to Z.
pub(crate) fn all_folded(alloc: Global, texts: &Texts) -> Result<Texts, OutOfMemory>
    ensures { IfOk result (λ ts. ts ≡ map fold texts.now) }
{
    let mut all = Vec::new(alloc);
    for text in texts.as_slice() {
        all.push(folded(alloc, text.as_str())?)?;
    }
    Ok(Texts::from_vec(all))
}

/// The segments of a type or a name: the parts of the text between its slashes, one more than it has
/// slashes.
pub fn segments(alloc: Global, text: &str) -> Result<Texts, OutOfMemory>
    ensures { IfOk result (λ ss. ss ≡ segments (chars text.now)) }
{
    let parts = parts(alloc, text)?;
    let mut segments = Vec::new(alloc);
    for part in parts.as_slice() {
        push_text(alloc, &mut segments, part)?;
    }
    Ok(Texts::from_vec(segments))
}

// The parts of a text between its slashes, borrowed from it.
fn parts(alloc: Global, text: &str) -> Result<Vec<&str>, OutOfMemory>
    ensures { IfOk result (λ v. map (λ x. chars x.now) v.items ≡ segments (chars text.now)) }
{
    text.split('/').collect(alloc)
}

/// The segments as one text, with a slash before each.
pub(crate) fn slashed(alloc: Global, segments: &[&str]) -> Result<String, OutOfMemory>
    ensures { IfOk result (λ s. chars (string_bytes s)
        ≡ slashed (map (λ x. chars x.now) segments.now)) }
{
    let mut text = String::new(alloc);
    for segment in segments {
        push_segment(&mut text, segment)?;
    }
    Ok(text)
}

/// Adds a slash and the segment.
pub(crate) fn push_segment(text: &mut String, segment: &str) -> Result<(), OutOfMemory>
    ensures { OnOk result (chars (string_bytes text.new)
        ≡ chars (string_bytes text.old) ++ 47 ∷ chars segment.now) }
{
    text.push('/')?;
    text.push_str(segment)?;
    Ok(())
}

/// Whether one of the segments is empty.
pub fn has_empty_segment(segments: &[Text]) -> bool
    ensures { result ≡ list_any is_empty segments.now }
{
    for segment in segments {
        if segment.is_empty() {
            return true;
        }
    }
    false
}

// Adds the text.
fn push_text(alloc: Global, texts: &mut Vec<Text>, text: &str) -> Result<(), OutOfMemory>
    ensures { OnOk result (texts.new.items ≡ texts.old.items ++ chars text.now ∷ []) }
{
    texts.push(Text::of(alloc, text)?)?;
    Ok(())
}

// Adds a copy of the text.
fn push_copy(alloc: Global, texts: &mut Vec<Text>, text: &Text) -> Result<(), OutOfMemory>
    ensures { OnOk result (texts.new.items ≡ texts.old.items ++ text.now ∷ []) }
{
    texts.push(text.copy(alloc)?)?;
    Ok(())
}

/// Copies of both texts.
pub(crate) fn copy_pair(
    alloc: Global,
    one: &Text,
    other: &Text,
) -> Result<(Text, Text), OutOfMemory>
    ensures { IfOk result (λ p. (p.0 ≡ one.now) × (p.1 ≡ other.now)) }
{
    let one = one.copy(alloc)?;
    Ok((one, other.copy(alloc)?))
}

/// The types of a path after a provider's name: that name, and each first segment of a pair.
pub(crate) fn types_of(alloc: Global, provider: &Text, path: &[Text]) -> Result<Texts, OutOfMemory>
    ensures { IfOk result (λ ts. ts ≡ provider.now ∷ firsts path.now) }
{
    let mut types = Vec::new(alloc);
    push_copy(alloc, &mut types, provider)?;
    let mut rest = path;
    while let [kind, _, after @ ..] = rest {
        push_copy(alloc, &mut types, kind)?;
        rest = after;
    }
    if let [kind] = rest {
        push_copy(alloc, &mut types, kind)?;
    }
    Ok(Texts::from_vec(types))
}

/// The names of a path after a provider's name: each second segment of a pair.
pub(crate) fn names_of(alloc: Global, path: &[Text]) -> Result<Texts, OutOfMemory>
    ensures { IfOk result (λ ts. ts ≡ seconds path.now) }
{
    let mut names = Vec::new(alloc);
    let mut rest = path;
    while let [_, name, after @ ..] = rest {
        push_copy(alloc, &mut names, name)?;
        rest = after;
    }
    Ok(Texts::from_vec(names))
}

/// Whether the second list begins with the texts of the first.
pub(crate) fn is_front(front: &Texts, whole: &Texts) -> bool
    ensures { result ≡ is_front front.now whole.now }
{
    let front = front.as_slice();
    let whole = whole.as_slice();
    if front.len() > whole.len() {
        return false;
    }
    for i in 0..front.len() {
        if !front[i].same(&whole[i]) {
            return false;
        }
    }
    true
}

/// Whether both lists have the same texts.
pub(crate) fn same_texts(one: &Texts, other: &Texts) -> bool
    ensures { IsTrue result ↔ (one.now ≡ other.now) }
{
    one.len() == other.len() && is_front(one, other)
}
