// Type texts: `type@version`.
ghost use Rattle.std.specs.Prelude.{◌≡◌, chars, option_map};
ghost use Rattle.bicep_misplaced.specs.Types as spec;

use arm_expr::is_bracketed;
use arm_value::Text;

// The text before the first `@`, and the text after it.
fn divided(path: &str) -> Option<(&str, &str)>
    ensures { option_map (λ q. (chars q.0.now, chars q.1.now)) result ≡ spec.divided 64 (chars path.now) }
{
    match path.split_once('@') {
        Some((kind, version)) => Some((kind, version)),
        None => None,
    }
}

// The text before the first `/`, and the text after it.
fn segments(kind: &str) -> Option<(&str, &str)>
    ensures { option_map (λ q. (chars q.0.now, chars q.1.now)) result ≡ spec.divided 47 (chars kind.now) }
{
    match kind.split_once('/') {
        Some((first, rest)) => Some((first, rest)),
        None => None,
    }
}

/// Whether the type or the version of a type text is in brackets.
pub(crate) fn is_bad_path(path: &Text) -> bool
    ensures { result ≡ spec.is_bad_path path.now }
{
    match divided(path.as_str()) {
        Some((kind, version)) => is_bracketed(kind) || is_bracketed(version),
        None => is_bracketed(path.as_str()),
    }
}

fn is_undivided(kind: &str) -> bool
    ensures { result ≡ spec.is_undivided (spec.divided 47 (chars kind.now)) }
{
    match segments(kind) {
        Some(_) => false,
        None => true,
    }
}

/// Whether a type text has a type of one segment.
pub fn is_one_segment(path: &Text) -> bool
    ensures { result ≡ spec.is_one_segment path.now }
{
    match divided(path.as_str()) {
        Some((kind, _)) => is_undivided(kind),
        None => is_undivided(path.as_str()),
    }
}
