// Texts without brackets, and texts of one segment.

ghost use Rattle.std.specs.Prelude.{◌≡◌, chars};
ghost use Rattle.arm_ids.specs.Segments.{has_slash};
ghost use Rattle.arm_value.specs.View.{json};
ghost use Rattle.resource_members.specs.Members.{bracket_fault, word_fault, segment_fault, type_fault};

use crate::setting::Rank;
use arm_expr::is_bracketed;
use arm_value::{Text, Value};
use std::alloc::Global;
use template_parts::TemplateFault;
use template_values::order::wrong_form;

// Whether the text has more than one segment.
fn has_slash(text: &str) -> bool
    ensures { result ≡ has_slash (chars text.now) }
{
    text.chars().any(|c| c == '/')
}

/// A fault where a text has more than one segment, if it is that of a child.
pub fn segment_fault(alloc: Global, rank: Rank, text: &str) -> Option<TemplateFault>
    ensures { result ≡ segment_fault rank (chars text.now) }
{
    match rank {
        Rank::Listed => None,
        Rank::Child => if has_slash(text) {
            Some(wrong_form(alloc))
        } else {
            None
        },
        Rank::Symbolic => None,
    }
}

// A fault where a text is in brackets.
fn bracket_fault(alloc: Global, text: &Text) -> Option<TemplateFault>
    ensures { result ≡ bracket_fault text.now }
{
    if is_bracketed(text.as_str()) {
        Some(wrong_form(alloc))
    } else {
        None
    }
}

/// Why a value is refused that must be a text without brackets.
pub fn word_fault(alloc: Global, value: &Value) -> Option<TemplateFault>
    ensures { result ≡ word_fault (json value.now) }
{
    match value {
        Value::Text(text) => bracket_fault(alloc, text),
        _ => Some(wrong_form(alloc)),
    }
}

/// Why a type is refused: it is a text without brackets, and that of a child has one segment.
pub fn type_fault(alloc: Global, rank: Rank, value: &Value) -> Option<TemplateFault>
    ensures { result ≡ type_fault rank (json value.now) }
{
    let Value::Text(text) = value else {
        return Some(wrong_form(alloc));
    };
    match bracket_fault(alloc, text) {
        Some(fault) => Some(fault),
        None => segment_fault(alloc, rank, text.as_str()),
    }
}
