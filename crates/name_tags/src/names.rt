// The names of an instance as tags.
ghost use Rattle.std.specs.Prelude.{◌≡◌, ◌∷◌, ◌++◌, [], ℕ, List, IfOk, is_some, if◌then◌else◌};
ghost use Rattle.arm_eval.specs.Titles.{element};
ghost use Rattle.arm_value.specs.Look.{fold};
ghost use Rattle.arm_ids.specs.Segments.{joined};
ghost use Rattle.arm_ids.specs.declared.id.Place.{Place};
ghost use Rattle.deploy_cells.specs.Puts.{key_at};
ghost use Rattle.tag_needs.specs.Tags.{tags_of};
ghost use Rattle.plan_codes.specs.NameCodes.{keyed, spelled, symbolic, loop_names, names_in_one, symbol_names};
ghost use Rattle.plan_codes.specs.NameCodes.{names_in_two, names_of};
ghost use Rattle.plan_table.specs.Listed.{listed_of};

use crate::tag::{element_tag, keyed_tag, kind_tag, loop_tag, spelled_tag, symbol_tag};
use arm_ids::Key;
use arm_value::{OutOfMemory, Text};
use plan_table::listed::Listed;
use std::alloc::Global;
use template_parts::{Form, ResourceCopy};

/// An instance of a resource, with its key.
#[derive(Clone, Copy)]
pub struct Titled<'a, 'b> {
    /// The resource.
    pub listed: &'a Listed<'b>,
    /// The index of the instance in the resource's loop, or 0.
    pub copy: usize,
    /// Its key, which has its full name.
    pub key: &'a Key,
}

// Lists the name of the loop.
fn push_loop(
    alloc: Global,
    tags: &mut Vec<Vec<usize>>,
    scope: usize,
    looping: &Option<ResourceCopy>,
) -> Result<(), OutOfMemory>
    ensures { IfOk result (λ _. tags_of tags.new ≡ tags_of tags.old ++ loop_names scope looping.now) }
{
    match looping {
        Some(looping) => {
            let tag = loop_tag(alloc, scope, &looping.name)?;
            tags.push(tag)?;
            Ok(())
        }
        None => Ok(()),
    }
}

// Lists the key.
pub(crate) fn push_key(
    alloc: Global,
    tags: &mut Vec<Vec<usize>>,
    scope: usize,
    key: &Key,
) -> Result<(), OutOfMemory>
    ensures { IfOk result (λ _. tags_of tags.new ≡ tags_of tags.old ++ keyed scope key.now ∷ []) }
{
    let tag = keyed_tag(alloc, scope, key)?;
    tags.push(tag)?;
    Ok(())
}

// Lists a full name.
pub(crate) fn push_spelled(
    alloc: Global,
    tags: &mut Vec<Vec<usize>>,
    scope: usize,
    name: &Text,
) -> Result<(), OutOfMemory>
    ensures { IfOk result (λ _. tags_of tags.new ≡ tags_of tags.old ++ spelled scope (fold name.now) ∷ []) }
{
    let tag = spelled_tag(alloc, scope, name)?;
    tags.push(tag)?;
    Ok(())
}

// Lists a type and a name.
fn push_kind(
    alloc: Global,
    tags: &mut Vec<Vec<usize>>,
    scope: usize,
    kind: &Text,
    name: &Text,
) -> Result<(), OutOfMemory>
    ensures { IfOk result (λ _. tags_of tags.new
        ≡ tags_of tags.old ++ spelled scope (fold (kind.now ++ 47 ∷ name.now)) ∷ []) }
{
    let tag = kind_tag(alloc, scope, kind, name)?;
    tags.push(tag)?;
    Ok(())
}

// Lists the type and the name, and the full name that the key has.
fn push_spellings(
    alloc: Global,
    tags: &mut Vec<Vec<usize>>,
    scope: usize,
    kind: &Text,
    key: &Key,
) -> Result<(), OutOfMemory>
    ensures { IfOk result (λ _. tags_of tags.new ≡ tags_of tags.old
        ++ (spelled scope (fold (kind.now ++ 47 ∷ joined key.now.names))
        ∷ spelled scope (fold (joined key.now.names)) ∷ [])) }
{
    let name = key.parts().full_name(alloc)?;
    push_kind(alloc, tags, scope, kind, &name)?;
    push_spelled(alloc, tags, scope, &name)
}

// Lists the names of an instance in the first form: that of its loop, its key, its type and name, and its full name.
fn push_names_in_one(
    alloc: Global,
    tags: &mut Vec<Vec<usize>>,
    scope: usize,
    titled: &Titled,
) -> Result<(), OutOfMemory>
    ensures { IfOk result (λ _. (place : Place) (n : List ℕ)
        → titled.now.key.now ≡ key_at place titled.now.listed.now.kind n → tags_of tags.new ≡ tags_of tags.old
        ++ names_in_one scope place (listed_of titled.now.listed.now) n) }
{
    push_loop(alloc, tags, scope, &titled.listed.declaration.copy)?;
    push_key(alloc, tags, scope, titled.key)?;
    push_spellings(alloc, tags, scope, &titled.listed.kind, titled.key)
}

// Lists the symbolic name with the index, where the resource has a loop.
fn push_element(
    alloc: Global,
    tags: &mut Vec<Vec<usize>>,
    scope: usize,
    symbol: &Text,
    titled: &Titled,
) -> Result<(), OutOfMemory>
    ensures { IfOk result (λ _. tags_of tags.new ≡ tags_of tags.old
        ++ (if is_some titled.now.listed.now.declaration.now.copy
        then symbolic scope (element symbol.now titled.now.copy) ∷ [] else [])) }
{
    match &titled.listed.declaration.copy {
        Some(_) => {
            let tag = element_tag(alloc, scope, symbol, titled.copy)?;
            tags.push(tag)?;
            Ok(())
        }
        None => Ok(()),
    }
}

// Lists the symbolic name, and that with the index.
fn push_symbol(
    alloc: Global,
    tags: &mut Vec<Vec<usize>>,
    scope: usize,
    titled: &Titled,
) -> Result<(), OutOfMemory>
    ensures { IfOk result (λ _. tags_of tags.new ≡ tags_of tags.old
        ++ symbol_names scope titled.now.copy (is_some titled.now.listed.now.declaration.now.copy)
        titled.now.listed.now.declaration.now.symbol) }
{
    match &titled.listed.declaration.symbol {
        Some(symbol) => {
            let tag = symbol_tag(alloc, scope, symbol.as_str())?;
            tags.push(tag)?;
            push_element(alloc, tags, scope, symbol, titled)
        }
        None => Ok(()),
    }
}

// Lists the names of an instance in the second form: its symbolic name, that with its index where it is looped, and its
// key.
fn push_names_in_two(
    alloc: Global,
    tags: &mut Vec<Vec<usize>>,
    scope: usize,
    titled: &Titled,
) -> Result<(), OutOfMemory>
    ensures { IfOk result (λ _. (place : Place) (n : List ℕ)
        → titled.now.key.now ≡ key_at place titled.now.listed.now.kind n → tags_of tags.new ≡ tags_of tags.old
        ++ names_in_two scope place (listed_of titled.now.listed.now) titled.now.copy n) }
{
    push_symbol(alloc, tags, scope, titled)?;
    push_key(alloc, tags, scope, titled.key)
}

/// Lists the names of an instance of the scope of this number last.
pub fn push_names(
    alloc: Global,
    tags: &mut Vec<Vec<usize>>,
    scope: usize,
    form: Form,
    titled: &Titled,
) -> Result<(), OutOfMemory>
    ensures { IfOk result (λ _. (place : Place) (n : List ℕ)
        → titled.now.key.now ≡ key_at place titled.now.listed.now.kind n → tags_of tags.new ≡ tags_of tags.old
        ++ names_of scope form place (listed_of titled.now.listed.now) titled.now.copy n) }
{
    match form {
        Form::One => push_names_in_one(alloc, tags, scope, titled),
        Form::Two => push_names_in_two(alloc, tags, scope, titled),
    }
}
