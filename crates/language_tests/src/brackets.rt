// Which texts of a template are expressions, and how plain texts are written.

use crate::answers::Question;
use crate::table::check;
use arm_expr::{Meaning, escaped, is_bracketed, meaning_of};
use arm_value::Text;
use std::alloc::{AllocError, Global};
use std::test::Fail;

// What the text means, in words.
fn shown<'a>(text: &'a str) -> &'a str {
    match meaning_of(text) {
        Meaning::Expression => "an expression",
        Meaning::Plain(plain) => plain,
    }
}

/// Adds what the text means.
pub fn say_meaning(out: &mut String, asked: &str) -> Result<(), AllocError> {
    out.push_str(shown(asked))
}

const MEANINGS: &str = r#"[concat('a')] -> an expression
[not an expression] -> an expression
[] -> an expression
[a[0]] -> an expression
[[a] -> [a]
[[a]] -> [a]]
[[] -> []
a]
[a
[
]
a[0]
[[
[[a
[größe] -> an expression"#;

#[test]
fn texts_in_one_bracket_are_expressions(rt: HostRuntime) -> Result<(), Fail> {
    check(rt.alloc(), Question::Meaning, MEANINGS)
}

/// Adds how the text is written as a plain one, and whether that means another text.
pub fn say_escaped(out: &mut String, alloc: Global, asked: &str) -> Result<(), AllocError> {
    let plain = Text::of(alloc, asked)?;
    let written = escaped(alloc, &plain)?;
    out.push_str(written.as_str())?;
    let means_it = shown(written.as_str()) == asked;
    out.push_str(if means_it {
        ""
    } else {
        ", which means another text"
    })
}

const ESCAPED: &str = r#"[a] -> [[a]
[[a]] -> [[[a]]
[] -> [[]
a
[a
a]
größe"#;

#[test]
fn plain_texts_are_written_as_themselves(rt: HostRuntime) -> Result<(), Fail> {
    check(rt.alloc(), Question::Escaped, ESCAPED)
}

/// Adds whether brackets are at both ends.
pub fn say_bracketed(out: &mut String, asked: &str) -> Result<(), AllocError> {
    out.push_str(if is_bracketed(asked) { "true" } else { "false" })
}

const BRACKETED: &str = "[[a] -> true
[a -> false
a] -> false
[ -> false";

#[test]
fn brackets_are_at_both_ends(rt: HostRuntime) -> Result<(), Fail> {
    check(rt.alloc(), Question::Bracketed, BRACKETED)
}
