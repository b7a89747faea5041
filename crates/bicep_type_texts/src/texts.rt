// Type texts: `type@version`.
ghost use Rattle.std.specs.Prelude.{◌≡◌, ◌&&◌, not, chars, option_map, IfOk};
ghost use Rattle.arm_ids.specs.Segments.{is_empty};
ghost use Rattle.bicep_misplaced.specs.Types.{divided, is_undivided};
ghost use Rattle.bicep_type_texts.specs.Texts as spec;

use arm_ids::{has_empty_segment, segments};
use arm_value::{OutOfMemory, Text};
use bicep_tree::is_word;
use std::alloc::Global;

/// The text before the first `@`, and the text after it.
pub fn divided(text: &str) -> Option<(&str, &str)>
    ensures { option_map (λ q. (chars q.0.now, chars q.1.now)) result ≡ divided 64 (chars text.now) }
{
    match text.split_once('@') {
        Some((kind, version)) => Some((kind, version)),
        None => None,
    }
}

// The text before the first `/`, and the text after it.
fn apart(kind: &str) -> Option<(&str, &str)>
    ensures { option_map (λ q. (chars q.0.now, chars q.1.now)) result ≡ divided 47 (chars kind.now) }
{
    match kind.split_once('/') {
        Some((first, rest)) => Some((first, rest)),
        None => None,
    }
}

fn is_undivided(kind: &str) -> bool
    ensures { result ≡ is_undivided (divided 47 (chars kind.now)) }
{
    match apart(kind) {
        Some(_) => false,
        None => true,
    }
}

fn is_empty(text: &str) -> bool
    ensures { result ≡ is_empty (chars text.now) }
{
    is_word(text, "")
}

// Two segments or more, none of which is empty.
#[tactic(auto, unfolding(crate::specs::Texts::is_type))]
fn is_type(alloc: Global, kind: &str) -> Result<bool, OutOfMemory>
    ensures { IfOk result (λ b. b ≡ spec.is_type (chars kind.now)) }
{
    let parts = segments(alloc, kind)?;
    Ok(2 <= parts.len() && !has_empty_segment(parts.as_slice()))
}

fn is_deployments(alloc: Global, kind: &str) -> Result<bool, OutOfMemory>
    ensures { IfOk result (λ b. b ≡ spec.is_deployments (chars kind.now)) }
{
    let kind = Text::of(alloc, kind)?;
    Ok(kind.equals_ignore_case("Microsoft.Resources/deployments"))
}

// A type that a resource may have, and a version.
fn are_whole(alloc: Global, kind: &str, version: &str) -> Result<bool, OutOfMemory>
    ensures { IfOk result (λ b. b ≡ (spec.is_type (chars kind.now)
        && (not (spec.is_deployments (chars kind.now)) && not (is_empty (chars version.now))))) }
{
    if !is_type(alloc, kind)? {
        return Ok(false);
    }
    Ok(!is_deployments(alloc, kind)? && !is_empty(version))
}

/// Whether the text has a type and a version.
pub(crate) fn is_whole(alloc: Global, text: &Text) -> Result<bool, OutOfMemory>
    ensures { IfOk result (λ b. b ≡ spec.is_whole text.now) }
{
    match divided(text.as_str()) {
        Some((kind, version)) => are_whole(alloc, kind, version),
        None => Ok(false),
    }
}

fn is_segment(kind: &str) -> bool
    ensures { result ≡ spec.is_segment (chars kind.now) }
{
    is_undivided(kind) && !is_empty(kind)
}

/// Whether the text has one segment, and a version or none.
pub(crate) fn is_part(text: &Text) -> bool
    ensures { result ≡ spec.is_part text.now }
{
    match divided(text.as_str()) {
        Some((kind, version)) => is_segment(kind) && !is_empty(version),
        None => is_segment(text.as_str()),
    }
}
