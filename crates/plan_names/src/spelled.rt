// Whether a text spells the type and the name of a resource, and the key of these.
ghost use Rattle.std.specs.Prelude.{◌≡◌, ◌++◌, ◌∷◌, IfOk, chars, string_bytes};
ghost use Rattle.deploy_cells.specs.Puts.{key_at};
ghost use Rattle.plan_names.specs.Named.{is_spelled};

use arm_ids::{Key, Place};
use arm_value::{OutOfMemory, Text};
use std::alloc::{AllocError, Global};

// Adds a slash and the text.
fn push_segment(full: &mut String, segment: &str) -> Result<(), OutOfMemory>
    ensures { IfOk result (λ _. chars (string_bytes full.new)
        ≡ chars (string_bytes full.old) ++ 47 ∷ chars segment.now) }
{
    full.push('/')?;
    full.push_str(segment)?;
    Ok(())
}

/// Whether the text is the name, or the type and the name with a slash between, in letters of any case.
pub fn is_spelled(alloc: Global, text: &Text, kind: &str, name: &str) -> Result<bool, OutOfMemory>
    ensures { IfOk result (λ b. b ≡ is_spelled text.now (chars kind.now) (chars name.now)) }
{
    if text.equals_ignore_case(name) {
        return Ok(true);
    }
    let mut spelling = Text::of(alloc, kind)?.into_string();
    push_segment(&mut spelling, name)?;
    Ok(text.equals_ignore_case(spelling.as_str()))
}

/// The key of a type and a name in a place, of which one can be formed.
pub fn key_formed(alloc: Global, place: &Place, kind: &str, name: &str) -> Result<Key, OutOfMemory>
    ensures { IfOk result (λ k. k ≡ key_at place.now (chars kind.now) (chars name.now)) }
{
    match Key::of(alloc, place, kind, name) {
        Ok(key) => Ok(key),
        Err(_) => Err(AllocError),
    }
}
