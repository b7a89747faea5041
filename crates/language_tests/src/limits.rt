// How long and how deep an expression may be.
ghost use Rattle.std.specs.Prelude.{IfOk};
ghost use Rattle.arm_expr.specs.Print.{HasNames};
ghost use Rattle.arm_expr.specs.View.{tree_of};

use crate::answers::Question;
use crate::table::{check, letting_go};
use arm_expr::{Expr, ExprFault, print, read};
use arm_value::Text;
use std::alloc::{AllocError, Global};
use std::test::Fail;

// Adds so many copies of a part.
fn add_times(text: &mut String, part: &str, times: usize) -> Result<(), AllocError> {
    for _ in 0..times {
        text.push_str(part)?;
    }
    Ok(())
}

fn say_whether(out: &mut String, read: &Result<Expr, ExprFault>) -> Result<(), AllocError> {
    match read {
        Ok(_) => out.push_str("read"),
        Err(fault) => write!(out, "{fault}"),
    }
}

// Adds why the text is not read, or that it is.
fn say_read(out: &mut String, alloc: Global, text: &str) -> Result<(), AllocError> {
    let read = read(alloc, text);
    letting_go(say_whether(out, &read), read)
}

// Adds a text in brackets: as often as the row says what opens, then what is between, and as often what closes.
fn add_row(text: &mut String, row: &str) -> Result<(), AllocError> {
    let (times, rest) = row.split_once('|').unwrap_or((row, ""));
    let (open, rest) = rest.split_once('|').unwrap_or((rest, ""));
    let (inner, close) = rest.split_once('|').unwrap_or((rest, ""));
    let times = times.parse().unwrap_or(0);
    text.push_str("[")?;
    add_times(text, open, times)?;
    text.push_str(inner)?;
    add_times(text, close, times)?;
    text.push_str("]")
}

/// Adds why the text of a row is not read, or that it is. A row has a number, what opens, what is between and what
/// closes.
pub fn say_nested(out: &mut String, alloc: Global, asked: &str) -> Result<(), AllocError> {
    let mut text = String::new(alloc);
    add_row(&mut text, asked)?;
    say_read(out, alloc, text.as_str())
}

// Calls, arguments after others, members and indices.
const NESTED: &str = "\
64|a(|'x'|) -> read
64|f(1, 'y', |'x'|) -> read
64||0|.b -> read
64||0|[0] -> read
65|a(|'x'|) -> nested above 64
65|f(1, 'y', |'x'|) -> nested above 64
65||0|.b -> nested above 64
65||0|[0] -> nested above 64";

#[test]
fn an_expression_that_is_read_nests_at_most_64(rt: HostRuntime) -> Result<(), Fail> {
    check(rt.alloc(), Question::Nested, NESTED)
}

// These texts nest thousands deep.
const DEEP: &str = "\
8191|a(||) -> nested above 64
4914|x()[|0|] -> nested above 64
12287|a(|| -> no expression
6143|x()[|| -> no expression";

#[test]
fn a_deep_text_is_decided_without_a_deep_tree(rt: HostRuntime) -> Result<(), Fail> {
    check(rt.alloc(), Question::Nested, DEEP)
}

// A string of so many characters, each of two bytes.
fn string_of(alloc: Global, characters: usize) -> Result<Expr, AllocError>
    ensures { IfOk result (λ e. HasNames (tree_of e)) }
{
    let mut text = String::new(alloc);
    add_times(&mut text, "ö", characters)?;
    Ok(Expr::Text(Text::from_string(text)))
}

// Adds whether the text is read, and whether it is with a blank after it.
fn say_longer(out: &mut String, alloc: Global, text: &str) -> Result<(), AllocError> {
    say_read(out, alloc, text)?;
    out.push_str(", ")?;
    let longer = format!(in alloc; "{text} ")?;
    say_read(out, alloc, longer.as_str())
}

// Adds why the expression is not written, or whether what is written is read, and with a blank after it.
fn say_printed(out: &mut String, alloc: Global, e: &Expr) -> Result<(), AllocError>
    requires { HasNames (tree_of e.now) }
{
    match print(alloc, e) {
        Ok(text) => say_longer(out, alloc, text.as_str()),
        Err(fault) => write!(out, "{fault}"),
    }
}

/// Adds the same of a string of so many characters.
pub fn say_strung(out: &mut String, alloc: Global, asked: &str) -> Result<(), AllocError> {
    let string = string_of(alloc, asked.parse().unwrap_or(0))?;
    letting_go(say_printed(out, alloc, &string), string)
}

// With its brackets and its quotes the first string is a text of 24,576 characters.
const STRUNG: &str = "24572 -> read, longer than 24576 characters
24573 -> longer than 24576 characters";

#[test]
fn a_text_has_at_most_24_576_characters(rt: HostRuntime) -> Result<(), Fail> {
    check(rt.alloc(), Question::Strung, STRUNG)
}

// An int indexed so often, which nests so deep.
fn indexed(alloc: Global, times: usize) -> Result<Expr, AllocError>
    ensures { IfOk result (λ e. HasNames (tree_of e)) }
{
    let mut e = Expr::Int(0);
    for _ in 0..times {
        let base = Box::new(alloc, e)?;
        e = Expr::Index(base, Box::new(alloc, Expr::Int(0))?);
    }
    Ok(e)
}

/// Adds the same of an int that is indexed so often.
pub fn say_indexed(out: &mut String, alloc: Global, asked: &str) -> Result<(), AllocError> {
    let e = indexed(alloc, asked.parse().unwrap_or(0))?;
    say_printed(out, alloc, &e)
}

const INDEXED: &str = "64 -> read, no expression
65 -> nested above 64
8192 -> longer than 24576 characters";

#[test]
fn an_expression_that_is_written_nests_at_most_64(rt: HostRuntime) -> Result<(), Fail> {
    check(rt.alloc(), Question::Indexed, INDEXED)
}
