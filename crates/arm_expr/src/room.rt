// How much of a limited room the text of an expression takes. The functions write nothing, and stop
// counting where the room ends.

ghost use Rattle.std.specs.Prelude.{◌≡◌, ◌==◌, ◌+◌, ◌<◌, ◌≤◌, chars, length, map, MatchOption, if◌then◌else◌};
ghost use Rattle.std.specs.Fmt.{decimal, signed_decimal};
ghost use Rattle.arm_expr.specs.Tree.{trees};
ghost use Rattle.arm_expr.specs.Grammar.{doubled};
ghost use Rattle.arm_expr.specs.Print.{size, arguments_size};
ghost use Rattle.arm_expr.specs.View.{tree_of};

use crate::characters::characters;
use crate::expr::Expr;
use arm_value::Text;

fn digits(n: u64) -> usize
    ensures count { result ≡ length (decimal n) }
    ensures few { result ≤ 20 }
{
    if n < 10 { 1 } else { 1 + digits(n / 10) }
}

fn int_length(z: i64) -> usize
    ensures { result ≡ length (signed_decimal z) }
{
    if z < 0 {
        1 + digits(z.unsigned_abs())
    } else {
        digits(z.unsigned_abs())
    }
}

// How many characters write one character within quotes.
fn doubled_length(c: char) -> usize
    ensures { result ≡ (if c == 39 then 2 else 1) }
{
    if c == '\'' { 2 } else { 1 }
}

// What is left of the room after the text with its quotes doubled; none where it does not fit.
fn left_after_doubled(text: &str, room: usize) -> Option<usize>
    ensures { MatchOption result (room < length (doubled (chars text.now)))
        (λ left. left + length (doubled (chars text.now)) ≡ room) }
{
    let mut left = room;
    for c in text.chars() {
        match left.checked_sub(doubled_length(c)) {
            None => return None,
            Some(rest) => left = rest,
        }
    }
    Some(left)
}

// What is left of the room after a name and a `.` or `(`; none where they do not fit.
fn left_after_name(name: &Text, room: usize) -> Option<usize>
    ensures { MatchOption result (room < length name.now + 1) (λ left. left + (length name.now + 1) ≡ room) }
{
    room.checked_sub(characters(name.as_str()))?.checked_sub(1)
}

/// What is left of the room, in characters, after the text of an expression; none where it does not
/// fit.
#[cycle(room)]
#[tactic(auto, using(crate::proofs::ViewLemmas::views))]
pub fn left_after(e: &Expr, room: usize) -> Option<usize>
    ensures { MatchOption result (room < size (tree_of e.now))
        (λ left. left + size (tree_of e.now) ≡ room) }
{
    match e {
        Expr::Text(s) => left_after_doubled(s.as_str(), room.checked_sub(2)?),
        Expr::Int(z) => room.checked_sub(int_length(*z)),
        Expr::Call(name, arguments) => left_after_arguments(
            arguments,
            left_after_name(name, room)?,
        ),
        Expr::Member(inner, name) => left_after(inner, left_after_name(name, room)?),
        Expr::Index(base, index) => left_after(index, left_after(base, room.checked_sub(2)?)?),
    }
}

// The same of the arguments of a call and the `)` after them.
#[cycle(room)]
#[tactic(auto, using(crate::proofs::ViewLemmas::views))]
fn left_after_arguments(arguments: &[Expr], room: usize) -> Option<usize>
    ensures { MatchOption result (room < arguments_size 0 (trees (map tree_of arguments.now)))
        (λ left. left + arguments_size 0 (trees (map tree_of arguments.now)) ≡ room) }
{
    let mut left = room.checked_sub(1)?;
    let mut before = 0;
    for argument in arguments {
        left = left_after(argument, left.checked_sub(before)?)?;
        before = 2;
    }
    Some(left)
}
