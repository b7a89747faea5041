// Which key a text of `reference` names.
ghost use Rattle.std.specs.Prelude.{◌≡◌, ◌∷◌, ◌++◌, chars, string_bytes, map, option_map, IfOk};
ghost use Rattle.arm_ids.specs.declared.id.ResourceId.{ResourceId};
ghost use Rattle.arm_ids.specs.Segments.{joined};
ghost use Rattle.arm_env.specs.Find.{id_key, names_resource, first_named, names_only, names_key};
ghost use Rattle.arm_env.specs.Find.{is_same_key, first_key, key_named};
ghost use Rattle.arm_env.specs.Known.{key_of};

use crate::env::{ModuleAt, Spelled};
use crate::ids::push_segment;
use arm_ids::{IdFault, Key, ResourceId};
use arm_value::{OutOfMemory, Text};
use std::alloc::{AllocError, Global};

/// Whether both are one key.
#[tactic(auto, using(crate::proofs::KeyLemmas::same_key))]
pub(crate) fn is_key(key: &Key, other: &Key) -> bool
    ensures { result ≡ is_same_key key.now other.now }
{
    key.same(other)
}

/// The key of which the text is an id.
pub fn id_key(alloc: Global, text: &Text) -> Result<Option<Key>, OutOfMemory>
    ensures { IfOk result (λ k. k ≡ id_key text.now) }
{
    match ResourceId::read(alloc, text.as_str()) {
        Ok(id) => Ok(Some(id.key(alloc)?)),
        Err(IdFault::OutOfMemory) => Err(AllocError),
        Err(_) => Ok(None),
    }
}

// Whether the text is the resource's type and name, or its full name.
fn names_resource(alloc: Global, resource: &Spelled, text: &Text) -> Result<bool, OutOfMemory>
    ensures { IfOk result (λ b. b ≡ names_resource text.now resource.now) }
{
    if resource.spelling.equals_ignore_case(text.as_str()) {
        return Ok(true);
    }
    let name = resource.key.parts().full_name(alloc)?;
    Ok(name.equals_ignore_case(text.as_str()))
}

fn first_named<'a>(
    alloc: Global,
    names: &'a [Spelled],
    text: &Text,
) -> Result<Option<&'a Key>, OutOfMemory>
    ensures { IfOk result (λ k. option_map (λ k. k.now) k ≡ first_named text.now names.now) }
{
    for resource in names {
        if names_resource(alloc, resource, text)? {
            return Ok(Some(&resource.key));
        }
    }
    Ok(None)
}

// Whether the text names no resource of another key.
fn names_only(alloc: Global, names: &[Spelled], text: &Text, key: &Key) -> Result<bool, OutOfMemory>
    ensures { IfOk result (λ b. b ≡ names_only text.now key.now names.now) }
{
    for resource in names {
        if !is_key(key, &resource.key) && names_resource(alloc, resource, text)? {
            return Ok(false);
        }
    }
    Ok(true)
}

// The key's type and name, with a slash between.
fn spelling(alloc: Global, key: &Key) -> Result<Text, OutOfMemory>
    ensures { IfOk result (λ t. t ≡ joined key.now.types ++ 47 ∷ joined key.now.names) }
{
    let mut spelling = key.parts().full_type(alloc)?.into_string();
    let name = key.parts().full_name(alloc)?;
    push_segment(&mut spelling, name.as_str())?;
    Ok(Text::from_string(spelling))
}

// Whether the text is the key's type and name, or its full name.
fn names_key(alloc: Global, key: &Key, text: &Text) -> Result<bool, OutOfMemory>
    ensures { IfOk result (λ b. b ≡ names_key text.now key.now) }
{
    let spelling = spelling(alloc, key)?;
    if spelling.equals_ignore_case(text.as_str()) {
        return Ok(true);
    }
    let name = key.parts().full_name(alloc)?;
    Ok(name.equals_ignore_case(text.as_str()))
}

// The key of the first nested deployment that the text names.
fn first_key(alloc: Global, modules: &[ModuleAt], text: &Text) -> Result<Option<Key>, OutOfMemory>
    ensures { IfOk result (λ k. k ≡ first_key text.now (map key_of modules.now)) }
{
    for nested in modules {
        if names_key(alloc, &nested.key, text)? {
            return Ok(Some(nested.key.copy(alloc)?));
        }
    }
    Ok(None)
}

/// The key that the text names as a type and name, or as a full name: the one key of the template
/// instance, or else that of a nested deployment around.
pub(crate) fn key_named(
    alloc: Global,
    names: &[Spelled],
    modules: &[ModuleAt],
    text: &Text,
) -> Result<Option<Key>, OutOfMemory>
    ensures { IfOk result (λ k. k ≡ key_named text.now names.now (map key_of modules.now)) }
{
    match first_named(alloc, names, text)? {
        Some(key) => if names_only(alloc, names, text, key)? {
            Ok(Some(key.copy(alloc)?))
        } else {
            Ok(None)
        },
        None => first_key(alloc, modules, text),
    }
}
