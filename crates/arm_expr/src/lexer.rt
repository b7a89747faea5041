// The lexer: from the characters of a text to its tokens. The characters of a name, of a number and between quotes are
// found first and then copied at once.

ghost use Rattle.std.specs.Prelude.{true, false, ◌≡◌, ◌^◌, ◌≤◌, ◌++◌, ◌∷◌, [], map, chars, length, Some, None, IfOk};
ghost use Rattle.std.specs.Prelude.{OnOk};
ghost use Rattle.std.specs.Prelude.{List, ℕ, MatchOption, option_map, ◌≢◌};
ghost use Rattle.arm_expr.specs.Grammar.{kind_of, goes_on_name, is_digit, value_from, signed};
ghost use Rattle.arm_expr.specs.Tokens.{token_of, a_name};
ghost use Rattle.arm_expr.specs.Lexer.{lex, between, quoting, start_sign, number};
ghost use Rattle.arm_expr.specs.Runs.{kind_view, continues, front, rest, begun, numeral, counted, Reads};
ghost use Rattle.arm_expr.specs.declared.lexer.Run.TheVariants as runs;
ghost use Rattle.foundation.specs.Stopping.{Gives};
ghost use Rattle.arm_expr.specs.View.{text_of};

use crate::dropping::refuse;
use crate::token::Token;
use arm_value::{OutOfMemory, Text};
use foundation::Stop;
use std::alloc::Global;

/// What a character can be outside quotes.
#[derive(Clone, Copy)]
pub enum Kind {
    /// An ASCII letter or `_`.
    Letter,
    Digit,
    /// A space, a tab or the end of a line.
    Blank,
    Sign,
}

/// Characters in a row, inside a token.
#[derive(Clone, Copy)]
pub enum Run {
    /// Letters and digits.
    Name,
    Digits,
    /// Any but a quote.
    Quoted,
}

fn char_kind(c: char) -> Kind
    ensures { kind_view result ≡ kind_of c }
{
    if c.is_ascii_alphabetic() || c == '_' {
        Kind::Letter
    } else if c.is_ascii_digit() {
        Kind::Digit
    } else if c == ' ' || c == '\t' || c == '\r' || c == '\n' {
        Kind::Blank
    } else {
        Kind::Sign
    }
}

fn may_go_on(c: char) -> bool
    ensures { result ≡ goes_on_name (kind_of c) }
{
    match char_kind(c) {
        Kind::Letter => true,
        Kind::Digit => true,
        _ => false,
    }
}

fn may_count(c: char) -> bool
    ensures { result ≡ is_digit (kind_of c) }
{
    match char_kind(c) {
        Kind::Digit => true,
        _ => false,
    }
}

fn continues(run: Run, c: char) -> bool
    ensures { result ≡ continues run c }
{
    match run {
        Run::Name => may_go_on(c),
        Run::Digits => may_count(c),
        Run::Quoted => c != '\'',
    }
}

// The number that digits write, where it is below 2 ^ 64.
fn magnitude(digits: &[char]) -> Option<u64>
    ensures { MatchOption result (2 ^ 64 ≤ value_from 0 digits.now)
        (λ n. n ≡ value_from 0 digits.now) }
{
    let mut n: u64 = 0;
    for d in digits {
        let unit = u64::from(u32::from(*d)).saturating_sub(48);
        match n.checked_mul(10) {
            None => return None,
            Some(tens) => match tens.checked_add(unit) {
                None => return None,
                Some(more) => n = more,
            },
        }
    }
    Some(n)
}

fn negated(n: u64) -> i64
    requires { n ≤ 2 ^ 63 }
    ensures { result ≡ signed true n }
{
    if n == 0 { 0 } else { -((n - 1) as i64) - 1 }
}

fn number_of(negative: bool, digits: &[char]) -> Option<Token>
    ensures { option_map token_of result ≡ number negative digits.now }
{
    match magnitude(digits) {
        None => None,
        Some(n) => {
            if negative {
                if n <= 0x8000_0000_0000_0000 {
                    Some(Token::Int(negated(n)))
                } else {
                    None
                }
            } else if n < 0x8000_0000_0000_0000 {
                Some(Token::Int(n as i64))
            } else {
                None
            }
        }
    }
}

// The number that digits write, of which there must be one.
fn numeral_of(negative: bool, digits: &[char]) -> Option<Token>
    ensures { option_map token_of result ≡ numeral negative digits.now }
{
    match digits {
        [] => None,
        [_, ..] => number_of(negative, digits),
    }
}

fn put(tokens: &mut Vec<Token>, token: Token) -> Result<(), OutOfMemory>
    ensures { OnOk result
        (map token_of tokens.new.items ≡ map token_of tokens.old.items ++ token_of token ∷ []) }
{
    tokens.push(token)?;
    Ok(())
}

// What follows the characters of a run at the front of a text.
fn after_run(text: &str, run: Run) -> &str
    ensures { chars result.now ≡ rest (continues run) (chars text.now) }
{
    let mut characters = text.chars();
    let mut left = text;
    while let Some(c) = characters.next() {
        if !continues(run, c) {
            return left;
        }
        left = characters.as_str();
    }
    left
}

// The characters of a run at the front of a text, and what follows them.
fn run_of(text: &str, run: Run) -> (&str, &str)
    ensures front { chars result.0.now ≡ front (continues run) (chars text.now) }
    ensures rest { chars result.1.now ≡ rest (continues run) (chars text.now) }
{
    let left = after_run(text, run);
    text.split_at(text.len() - left.len())
}

// A name, which begins the text; what follows it is left.
fn read_name<'a>(
    alloc: Global,
    tokens: &mut Vec<Token>,
    text: &'a str,
) -> Result<&'a str, OutOfMemory>
    ensures name { OnOk result (map token_of tokens.new.items
        ≡ map token_of tokens.old.items ++ a_name (front (continues runs.Name) (chars text.now)) ∷ []) }
    ensures rest { IfOk result (λ left. chars left.now ≡ rest (continues runs.Name) (chars text.now)) }
{
    let (word, left) = run_of(text, Run::Name);
    let name = Text::of(alloc, word)?;
    put(tokens, Token::Name(name))?;
    Ok(left)
}

fn characters_in(alloc: Global, text: &str) -> Result<Vec<char>, OutOfMemory>
    ensures { IfOk result (λ characters. characters.items ≡ chars text.now) }
{
    text.chars().collect(alloc)
}

// A number, whose digits begin the text.
fn read_number<'a>(
    alloc: Global,
    tokens: &mut Vec<Token>,
    negative: bool,
    text: &'a str,
) -> Result<&'a str, Stop>
    ensures { Reads (map token_of tokens.old.items) (map token_of tokens.new.items)
        (counted negative (chars text.now)) (length (rest (continues runs.Digits) (chars text.now))) result }
{
    let (word, left) = run_of(text, Run::Digits);
    let digits = characters_in(alloc, word)?;
    match numeral_of(negative, &digits) {
        None => Err(Stop::Refused),
        Some(token) => {
            put(tokens, token)?;
            Ok(left)
        }
    }
}

// What follows a quote at the front of a text.
fn after_quote(text: &str) -> Option<&str>
    ensures { MatchOption result ((cs : List ℕ) → chars text.now ≢ 39 ∷ cs)
        (λ left. chars text.now ≡ 39 ∷ chars left.now) }
{
    match text.strip_prefix('\'') {
        None => None,
        Some(left) => Some(left),
    }
}

// Puts the characters before the first quote last in the string.
fn add_part<'a>(value: &mut String, text: &'a str) -> Result<&'a str, OutOfMemory>
    ensures front { OnOk result
        (text_of value.new ≡ text_of value.old ++ front (continues runs.Quoted) (chars text.now)) }
    ensures rest { IfOk result (λ left. chars left.now ≡ rest (continues runs.Quoted) (chars text.now)) }
{
    let (part, left) = run_of(text, Run::Quoted);
    value.push_str(part)?;
    Ok(left)
}

fn add_quote(value: &mut String) -> Result<(), OutOfMemory>
    ensures { OnOk result (text_of value.new ≡ text_of value.old ++ 39 ∷ []) }
{
    value.push('\'')?;
    Ok(())
}

// A string after its first quote.
fn read_text<'a>(alloc: Global, tokens: &mut Vec<Token>, text: &'a str) -> Result<&'a str, Stop>
    ensures { Reads (map token_of tokens.old.items) (map token_of tokens.new.items)
        (lex (quoting []) (chars text.now)) (length (chars text.now)) result }
{
    let mut value = String::new(alloc);
    let mut left = text;
    'parts: loop {
        let end = add_part(&mut value, left)?;
        match after_quote(end) {
            None => return refuse(value),
            Some(after) => match after_quote(after) {
                None => {
                    put(tokens, Token::Text(Text::from_string(value)))?;
                    return Ok(after);
                }
                Some(more) => {
                    add_quote(&mut value)?;
                    left = more;
                }
            },
        }
    }
}

// A token of one character.
fn mark<'a>(tokens: &mut Vec<Token>, token: Token, left: &'a str) -> Result<&'a str, Stop>
    ensures { Reads (map token_of tokens.old.items) (map token_of tokens.new.items)
        (option_map (λ ts. token_of token ∷ ts) (lex between (chars left.now))) (length (chars left.now)) result }
{
    put(tokens, token)?;
    Ok(left)
}

// The token that a character begins which is no letter, digit or blank.
fn read_sign<'a>(
    alloc: Global,
    tokens: &mut Vec<Token>,
    c: char,
    left: &'a str,
) -> Result<&'a str, Stop>
    ensures { Reads (map token_of tokens.old.items) (map token_of tokens.new.items)
        (begun (start_sign c) (chars left.now)) (length (chars left.now)) result }
{
    match c {
        '-' => read_number(alloc, tokens, true, left),
        '\'' => read_text(alloc, tokens, left),
        '(' => mark(tokens, Token::OpenParen, left),
        ')' => mark(tokens, Token::CloseParen, left),
        '[' => mark(tokens, Token::OpenBracket, left),
        ']' => mark(tokens, Token::CloseBracket, left),
        ',' => mark(tokens, Token::Comma, left),
        '.' => mark(tokens, Token::Dot, left),
        _ => Err(Stop::Refused),
    }
}

// The token, or the blank, that begins the text with this character, which the others follow.
fn read_token<'a>(
    alloc: Global,
    tokens: &mut Vec<Token>,
    c: char,
    text: &'a str,
    left: &'a str,
) -> Result<&'a str, Stop>
    requires { chars text.now ≡ c ∷ chars left.now }
    ensures { Reads (map token_of tokens.old.items) (map token_of tokens.new.items)
        (lex between (chars text.now)) (length (chars left.now)) result }
{
    match char_kind(c) {
        Kind::Blank => Ok(left),
        Kind::Letter => Ok(read_name(alloc, tokens, text)?),
        Kind::Digit => read_number(alloc, tokens, false, text),
        Kind::Sign => read_sign(alloc, tokens, c, left),
    }
}

/// The tokens of a text.
pub fn tokens(alloc: Global, text: &str) -> Result<Vec<Token>, Stop>
    ensures { Gives (λ v. map token_of v.items) result (lex between (chars text.now)) }
{
    let mut found = Vec::with_capacity(alloc, text.len() / 3)?;
    let mut left = text;
    let mut characters = left.chars();
    while let Some(c) = characters.next() {
        left = match read_token(alloc, &mut found, c, left, characters.as_str()) {
            Ok(left) => left,
            Err(e) => return Err(e),
        };
        characters = left.chars();
    }
    Ok(found)
}
