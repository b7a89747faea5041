// The ids that paths spell.

ghost use Rattle.std.specs.Prelude.{◌≡◌, ◌++◌, ◌∷◌, None, chars, map, string_bytes, IfOk, OnOk};
ghost use Rattle.http_routes.specs.Routes.{id_of, key_of, scope_of};
ghost use Rattle.http_routes.specs.Seen.{seen};

use crate::segment::Segment;
use arm_ids::{IdFault, Key, Scope};
use arm_value::{OutOfMemory, Text};
use std::alloc::{AllocError, Global};

/// The names of the segments as one text, with a slash before each.
pub(crate) fn id_of(alloc: Global, segments: &[Segment]) -> Result<Text, OutOfMemory>
    ensures { IfOk result (λ id. id ≡ id_of (map seen segments.now)) }
{
    let mut id = String::new(alloc);
    for segment in segments {
        add_name(&mut id, segment.name.as_str())?;
    }
    Ok(Text::from_string(id))
}

// Adds a slash and the name.
fn add_name(id: &mut String, name: &str) -> Result<(), OutOfMemory>
    ensures { OnOk result (chars (string_bytes id.new)
        ≡ chars (string_bytes id.old) ++ 47 ∷ chars name.now) }
{
    id.push('/')?;
    id.push_str(name)?;
    Ok(())
}

/// The key of which the text is the id, if there is one.
pub(crate) fn key_of(alloc: Global, id: &Text) -> Result<Option<Key>, OutOfMemory>
    ensures { IfOk result (λ key. key ≡ key_of id.now) }
{
    match Key::read_id(alloc, id.as_str()) {
        Ok(key) => Ok(Some(key)),
        Err(fault) => unread(fault),
    }
}

/// The scope of which the text is the id, if there is one.
pub(crate) fn scope_of(alloc: Global, id: &Text) -> Result<Option<Scope>, OutOfMemory>
    ensures { IfOk result (λ scope. scope ≡ scope_of id.now) }
{
    match Scope::read_id(alloc, id.as_str()) {
        Ok(scope) => Ok(Some(scope)),
        Err(fault) => unread(fault),
    }
}

// Nothing, unless memory ran out.
fn unread<T: Drop>(fault: IdFault) -> Result<Option<T>, OutOfMemory>
    ensures none { IfOk result (λ found. found ≡ None) }
    ensures known { OnOk result (¬ (fault ≡ IdFault.OutOfMemory)) }
{
    match fault {
        IdFault::EmptySegment => Ok(None),
        IdFault::SegmentsDiffer => Ok(None),
        IdFault::NotAnId => Ok(None),
        IdFault::OutOfMemory => Err(AllocError),
    }
}
