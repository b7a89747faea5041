// Which symbol of a template of the second form a text of `reference` means.
ghost use Rattle.std.specs.Prelude.{◌≡◌, ◌++◌, chars, codes, string_bytes, map, option_map, IfOk};
ghost use Rattle.std.specs.Fmt.{decimal};
ghost use Rattle.arm_value.specs.Json.{text};
ghost use Rattle.arm_value.specs.View.{json};
ghost use Rattle.arm_eval.specs.Titles.{grown, number_from, element, title_by, by_index, title_of};
ghost use Rattle.arm_eval.specs.Titles as titles;
ghost use Rattle.arm_eval.specs.Words.{listed_in, title_in};

use arm_env::env::Symbol;
use arm_ids::{IdFault, Key, Place, ResourceId};
use arm_value::{OutOfMemory, Text, Value};
use std::alloc::{AllocError, Global};

/// A symbol, and the name of its loop, if it has one.
#[derive(Clone, Copy, Drop)]
pub struct Listed<'a> {
    /// The symbol.
    pub symbol: &'a Symbol,
    /// The name of its loop.
    pub copy: Option<&'a Text>,
}

/// What a text means: a symbol without a loop, or the element of a looped one.
#[derive(Drop)]
pub struct Title<'a> {
    /// The symbol.
    pub listed: Listed<'a>,
    /// The index of the element, counted from 0.
    pub index: Option<u32>,
}

// The number with one more digit, of which nine count. It begins after a `[`.
fn grown(number: Option<u32>, c: char) -> Option<u32>
    ensures { result ≡ grown number c }
{
    match number {
        Some(number) => if number < 100_000_000 && c.is_ascii_digit() {
            Some(number * 10 + (c as u32 - 48))
        } else {
            Some(number)
        },
        None => if c == '[' { Some(0) } else { None },
    }
}

// The number that the digits after a `[` write, of which nine count.
fn number_in(text: &str) -> Option<u32>
    ensures { result ≡ number_from None (chars text.now) }
{
    let mut number = None;
    for c in text.chars() {
        number = grown(number, c);
    }
    number
}

// The bytes of `n[i]`.
fn spelled(alloc: Global, name: &str, index: u32) -> Result<String, OutOfMemory>
    ensures { IfOk result (λ s. string_bytes s
        ≡ name.now ++ (codes "[" ++ (decimal index ++ codes "]"))) }
{
    format!(in alloc; "{name}[{index}]")
}

// `n[i]`
fn element(alloc: Global, name: &Text, index: u32) -> Result<Text, OutOfMemory>
    ensures { IfOk result (λ t. t ≡ element name.now index) }
{
    let spelled = spelled(alloc, name.as_str(), index)?;
    Ok(Text::from_string(spelled))
}

// The element of a looped symbol that the text means.
fn by_index<'a>(
    alloc: Global,
    listed: Listed<'a>,
    text: &Text,
    index: Option<u32>,
) -> Result<Option<Title<'a>>, OutOfMemory>
    ensures { IfOk result (λ t. option_map title_in t ≡ by_index (listed_in listed.entry) text.now index) }
{
    match index {
        Some(index) => {
            let spelled = element(alloc, &listed.symbol.name, index)?;
            if text.equals(spelled.as_str()) {
                let index = Some(index);
                Ok(Some(Title { listed, index }))
            } else {
                Ok(None)
            }
        }
        None => Ok(None),
    }
}

// The symbol, where the text means it or an element of it.
fn title_by<'a>(
    alloc: Global,
    listed: Listed<'a>,
    text: &Text,
) -> Result<Option<Title<'a>>, OutOfMemory>
    ensures { IfOk result (λ t. option_map title_in t ≡ title_by (listed_in listed.entry) text.now) }
{
    if listed.symbol.looped {
        return by_index(alloc, listed, text, number_in(text.as_str()));
    }
    if listed.symbol.name.equals(text.as_str()) {
        return Ok(Some(Title {
            listed,
            index: None,
        }));
    }
    Ok(None)
}

/// The first symbol that the text means: the name of one without a loop, or `n[i]` of one that has a
/// loop, with the whole number i as it is printed. Names are compared exactly. An index of more than
/// nine digits means nothing.
pub fn title_of<'a>(
    alloc: Global,
    symbols: &[Listed<'a>],
    text: &Text,
) -> Result<Option<Title<'a>>, OutOfMemory>
    ensures { IfOk result (λ t. option_map title_in t ≡ title_of (map listed_in symbols.now) text.now) }
{
    for listed in symbols {
        match title_by(alloc, *listed, text)? {
            Some(title) => return Ok(Some(title)),
            None => {}
        }
    }
    Ok(None)
}

// The key of the type and a name in a place, where one can be formed.
fn key_formed(
    alloc: Global,
    place: &Place,
    kind: &Text,
    name: &Text,
) -> Result<Option<Key>, OutOfMemory>
    ensures { IfOk result (λ k. k ≡ titles.key_at place.now kind.now (text name.now)) }
{
    match ResourceId::of(alloc, place, kind.as_str(), name.as_str()) {
        Ok(id) => Ok(Some(id.key(alloc)?)),
        Err(IdFault::OutOfMemory) => Err(AllocError),
        Err(IdFault::EmptySegment) => Ok(None),
        Err(IdFault::SegmentsDiffer) => Ok(None),
        Err(IdFault::NotAnId) => Ok(None),
    }
}

/// The key of the type and a name in a place; none where the name is no text, or where no key can be
/// formed.
pub fn key_at(
    alloc: Global,
    place: &Place,
    kind: &Text,
    name: &Value,
) -> Result<Option<Key>, OutOfMemory>
    ensures { IfOk result (λ k. k ≡ titles.key_at place.now kind.now (json name.now)) }
{
    match name {
        Value::Text(name) => key_formed(alloc, place, kind, name),
        _ => Ok(None),
    }
}
