// One name as a tag.
ghost use Rattle.std.specs.Prelude.{◌≡◌, ◌∷◌, ◌++◌, [], IfOk, chars, codes, string_bytes};
ghost use Rattle.std.specs.Fmt.{decimal};
ghost use Rattle.arm_value.specs.Look.{fold};
ghost use Rattle.arm_eval.specs.Titles.{element};
ghost use Rattle.plan_codes.specs.NameCodes.{loop_code, keyed, spelled, symbolic};

use arm_ids::Key;
use arm_value::{OutOfMemory, Text};
use key_tags::key_tag;
use std::alloc::Global;

// A tag of this sort in the scope of this number.
fn begin_tag(alloc: Global, sort: usize, scope: usize) -> Result<Vec<usize>, OutOfMemory>
    ensures { IfOk result (λ t. t.items ≡ sort ∷ scope ∷ []) }
{
    let mut tag = Vec::new(alloc);
    tag.push(sort)?;
    tag.push(scope)?;
    Ok(tag)
}

// Adds the characters of the text.
fn push_exact(tag: &mut Vec<usize>, text: &str) -> Result<(), OutOfMemory>
    ensures { IfOk result (λ _. tag.new.items ≡ tag.old.items ++ chars text.now) }
{
    for c in text.chars() {
        tag.push(c as usize)?;
    }
    Ok(())
}

// Adds the characters of the text with small letters in place of A to Z.
fn push_folded(tag: &mut Vec<usize>, text: &str) -> Result<(), OutOfMemory>
    ensures { IfOk result (λ _. tag.new.items ≡ tag.old.items ++ fold (chars text.now)) }
{
    for c in text.chars() {
        tag.push(c.to_ascii_lowercase() as usize)?;
    }
    Ok(())
}

// Adds these numbers.
fn push_numbers(tag: &mut Vec<usize>, numbers: &[usize]) -> Result<(), OutOfMemory>
    ensures { IfOk result (λ _. tag.new.items ≡ tag.old.items ++ numbers.now) }
{
    for number in numbers {
        tag.push(*number)?;
    }
    Ok(())
}

/// The tag of a loop.
pub fn loop_tag(alloc: Global, scope: usize, name: &Text) -> Result<Vec<usize>, OutOfMemory>
    ensures { IfOk result (λ t. t.items ≡ loop_code scope (fold name.now)) }
{
    let mut tag = begin_tag(alloc, 5, scope)?;
    push_folded(&mut tag, name.as_str())?;
    Ok(tag)
}

/// The tag of a key.
pub fn keyed_tag(alloc: Global, scope: usize, key: &Key) -> Result<Vec<usize>, OutOfMemory>
    ensures { IfOk result (λ t. t.items ≡ keyed scope key.now) }
{
    let numbers = key_tag(alloc, key)?;
    let mut tag = begin_tag(alloc, 6, scope)?;
    push_numbers(&mut tag, numbers.as_slice())?;
    Ok(tag)
}

/// The tag of a name, or of a type and a name with a slash between, in letters of any case.
pub fn spelled_tag(alloc: Global, scope: usize, name: &Text) -> Result<Vec<usize>, OutOfMemory>
    ensures { IfOk result (λ t. t.items ≡ spelled scope (fold name.now)) }
{
    let mut tag = begin_tag(alloc, 7, scope)?;
    push_folded(&mut tag, name.as_str())?;
    Ok(tag)
}

/// The tag of a type and a name, with a slash between.
pub fn kind_tag(
    alloc: Global,
    scope: usize,
    kind: &Text,
    name: &Text,
) -> Result<Vec<usize>, OutOfMemory>
    ensures { IfOk result (λ t. t.items ≡ spelled scope (fold (kind.now ++ 47 ∷ name.now))) }
{
    let mut tag = spelled_tag(alloc, scope, kind)?;
    tag.push(47)?;
    push_folded(&mut tag, name.as_str())?;
    Ok(tag)
}

/// The tag of a symbolic name, or of one with an index.
pub fn symbol_tag(alloc: Global, scope: usize, symbol: &str) -> Result<Vec<usize>, OutOfMemory>
    ensures { IfOk result (λ t. t.items ≡ symbolic scope (chars symbol.now)) }
{
    let mut tag = begin_tag(alloc, 8, scope)?;
    push_exact(&mut tag, symbol)?;
    Ok(tag)
}

// The bytes of `n[i]`.
fn spell_element(alloc: Global, symbol: &str, copy: usize) -> Result<String, OutOfMemory>
    ensures { IfOk result (λ s. string_bytes s
        ≡ symbol.now ++ (codes "[" ++ (decimal copy ++ codes "]"))) }
{
    format!(in alloc; "{symbol}[{copy}]")
}

/// The tag of `n[i]`.
pub fn element_tag(
    alloc: Global,
    scope: usize,
    symbol: &Text,
    copy: usize,
) -> Result<Vec<usize>, OutOfMemory>
    ensures { IfOk result (λ t. t.items ≡ symbolic scope (element symbol.now copy)) }
{
    let element = spell_element(alloc, symbol.as_str(), copy)?;
    symbol_tag(alloc, scope, element.as_str())
}
