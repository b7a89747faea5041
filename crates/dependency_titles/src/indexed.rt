// Texts of the form `n[i]`.
ghost use Rattle.std.specs.Prelude.{◌≡◌, ◌++◌, ℕ, List, None, Some, false, true, chars, codes, string_bytes, bytes_eq};
ghost use Rattle.std.specs.Prelude.{IfOk, MatchOption};
ghost use Rattle.std.specs.Fmt.{decimal};
ghost use Rattle.arm_eval.specs.Titles.{grown, number_from};
ghost use Rattle.plan_cells.specs.Needs.{is_element};
ghost use Rattle.plan_faults.specs.Dependencies.{is_indexed};

use arm_value::{OutOfMemory, Text};
use std::alloc::Global;

// The number with one more digit, of which nine count. It begins after a `[`.
fn grown(number: Option<u32>, c: char) -> Option<u32>
    ensures { result ≡ grown number c }
{
    match number {
        Some(number) => if number < 100_000_000 && c.is_ascii_digit() {
            Some(number * 10 + (c as u32 - 48))
        } else {
            Some(number)
        },
        None => if c == '[' { Some(0) } else { None },
    }
}

// The number that the digits after a `[` write, of which nine count.
fn number_in(text: &str) -> Option<u32>
    ensures { result ≡ number_from None (chars text.now) }
{
    let mut number = None;
    for c in text.chars() {
        number = grown(number, c);
    }
    number
}

// `[i]`
fn bracketed(alloc: Global, index: u32) -> Result<String, OutOfMemory>
    ensures { IfOk result (λ s. string_bytes s ≡ codes "[" ++ (decimal index ++ codes "]")) }
{
    format!(in alloc; "[{index}]")
}

// The n of a text `n[i]`, by its i.
fn base_at(alloc: Global, text: &Text, index: u32) -> Result<Option<Text>, OutOfMemory>
    ensures { IfOk result (λ o. MatchOption o
        ((x : List ℕ) → is_element text.now index true (Some x) ≡ false)
        (λ b. (x : List ℕ) → is_element text.now index true (Some x) ≡ bytes_eq b x)) }
{
    let index = bracketed(alloc, index)?;
    match text.as_str().strip_suffix(index.as_str()) {
        Some(base) => Ok(Some(Text::of(alloc, base)?)),
        None => Ok(None),
    }
}

/// The n of a text `n[i]`, where i is a number as it is printed.
pub fn base_of(alloc: Global, text: &Text) -> Result<Option<Text>, OutOfMemory>
    ensures { IfOk result (λ o. MatchOption o
        ((x : List ℕ) → is_indexed text.now (number_from None text.now) (Some x) ≡ false)
        (λ b. (x : List ℕ) → is_indexed text.now (number_from None text.now) (Some x) ≡ bytes_eq b x)) }
{
    match number_in(text.as_str()) {
        Some(index) => base_at(alloc, text, index),
        None => Ok(None),
    }
}
