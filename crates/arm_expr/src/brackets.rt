// Which texts of a template are expressions, and how a plain text is written.

ghost use Rattle.std.specs.Prelude.{◌≡◌, ◌++◌, ◌∷◌, chars, codes, string_bytes, IfOk, MatchOption, true, false};
ghost use Rattle.arm_expr.specs.Brackets.{opens, is_bracketed, meaning, meaning_view, escaped};

use arm_value::{OutOfMemory, Text};
use std::alloc::Global;

/// What a text of a template means.
#[derive(Drop)]
pub enum Meaning<'a> {
    /// An expression, for `read`.
    Expression,
    /// This text, which is no expression.
    Plain(&'a str),
}

// The text after its first `[`, where the text is in brackets.
fn after_bracket(text: &str) -> Option<&str>
    ensures { MatchOption result
        (is_bracketed (chars text.now) ≡ false)
        (λ rest. (is_bracketed (chars text.now) ≡ true) × (chars text.now ≡ 91 ∷ chars rest.now)) }
{
    match text.strip_prefix('[') {
        None => None,
        Some(rest) => match rest.strip_suffix(']') {
            None => None,
            Some(_inner) => Some(rest),
        },
    }
}

/// Whether a text begins with `[` and ends with `]`.
pub fn is_bracketed(text: &str) -> bool
    ensures { result ≡ is_bracketed (chars text.now) }
{
    match after_bracket(text) {
        None => false,
        Some(_rest) => true,
    }
}

fn opens(text: &str) -> bool
    ensures { result ≡ opens (chars text.now) }
{
    match text.strip_prefix('[') {
        None => false,
        Some(_rest) => true,
    }
}

/// What a text of a template means: a text that begins with `[` and ends with `]` is an expression,
/// unless it begins with `[[`; then it is the text without its first `[`. Every other text is itself.
pub fn meaning_of<'a>(text: &'a str) -> Meaning<'a>
    ensures { meaning_view result ≡ meaning (chars text.now) }
{
    match after_bracket(text) {
        None => Meaning::Plain(text),
        Some(rest) => if opens(rest) {
            Meaning::Plain(rest)
        } else {
            Meaning::Expression
        },
    }
}

// The text with a `[` before it.
fn with_bracket(alloc: Global, text: &str) -> Result<String, OutOfMemory>
    ensures { IfOk result (λ s. string_bytes s ≡ codes "[" ++ text.now) }
{
    format!(in alloc; "[{text}")
}

/// A plain text as a template writes it, so that its meaning is that text: with a `[` more in front
/// where it begins with `[` and ends with `]`, else as it is.
pub fn escaped(alloc: Global, text: &Text) -> Result<Text, OutOfMemory>
    ensures { IfOk result (λ t. t ≡ escaped text.now) }
{
    if is_bracketed(text.as_str()) {
        let written = with_bracket(alloc, text.as_str())?;
        return Ok(Text::from_string(written));
    }
    text.copy(alloc)
}
