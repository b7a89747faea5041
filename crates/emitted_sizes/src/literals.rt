//! Expressions that are one word.
ghost use Rattle.std.specs.Prelude.{◌≡◌, ◌==◌, ◌≤◌, true, length, chars, if◌then◌else◌};
ghost use Rattle.std.specs.Fmt.{decimal, signed_decimal};
ghost use Rattle.arm_expr.specs.Tree.{text as text_tree, int as int_tree};
ghost use Rattle.emitted_parts.specs.Emitted.{literal_of, no_value as no_value_tree};
ghost use Rattle.emitted_parts.specs.Built.{is_ascii};
ghost use Rattle.emitted_sizes.specs.Extent.{IsOf, bounded, quoted};

use crate::calls::call_none;
use crate::extent::Extent;
use arm_value::Text;
use bicep_tree::Literal;

// How many characters write one character within quotes.
fn width(c: char) -> u64
    ensures { result ≡ (if c == 39 then 2 else 1) }
{
    if c == '\'' { 2 } else { 1 }
}

fn quoted_length(characters: &str) -> u64
    ensures { result ≡ bounded (quoted (chars characters.now)) }
{
    let mut length: u64 = 2;
    for c in characters.chars() {
        length = length.saturating_add(width(c));
    }
    length
}

/// A text.
pub fn text(characters: &Text) -> Extent
    ensures { IsOf (text_tree characters.now) result }
{
    Extent {
        length: quoted_length(characters.as_str()),
        depth: 0,
    }
}

/// A text in ASCII.
pub fn word(characters: &str) -> Extent
    ensures { is_ascii characters.now ≡ true → IsOf (text_tree characters.now) result }
{
    Extent {
        length: quoted_length(characters),
        depth: 0,
    }
}

fn digits(n: u64) -> u64
    ensures count { result ≡ length (decimal n) }
    ensures few { result ≤ 20 }
{
    if n < 10 { 1 } else { 1 + digits(n / 10) }
}

fn int_length(number: i64) -> u64
    ensures count { result ≡ length (signed_decimal number) }
    ensures few { result ≤ 21 }
{
    if number < 0 {
        1 + digits(number.unsigned_abs())
    } else {
        digits(number.unsigned_abs())
    }
}

/// A whole number.
pub fn int(number: i64) -> Extent
    ensures { IsOf (int_tree number) result }
{
    Extent {
        length: int_length(number),
        depth: 0,
    }
}

/// An expression that has no value and reads nothing.
pub fn no_value() -> Extent
    ensures { IsOf no_value_tree result }
{
    call_none(3)
}

/// What a literal becomes.
pub fn literal(literal: &Literal) -> Extent
    ensures { IsOf (literal_of literal.now) result }
{
    match literal {
        Literal::Number(number) => int(*number),
        Literal::Text(characters) => text(characters),
        Literal::True => call_none(4),
        Literal::False => call_none(5),
        Literal::Null => call_none(4),
    }
}
