// Which symbol of a template of the second form a text means.

use crate::answers::Question;
use crate::table::{check, letting_go};
use arm_env::env::Symbol;
use arm_eval::symbols::{Listed, Title, title_of};
use arm_value::Text;
use std::alloc::{AllocError, Global};
use std::test::Fail;

fn symbol(alloc: Global, name: &str, looped: bool) -> Result<Symbol, AllocError> {
    Ok(Symbol {
        name: Text::of(alloc, name)?,
        kind: Text::of(alloc, "A/b")?,
        title: Text::of(alloc, "n")?,
        looped,
    })
}

// Adds the symbol and the index of what a text means, or `none`.
fn say_title(out: &mut String, title: &Option<Title>) -> Result<(), AllocError> {
    let Some(title) = title else {
        return out.push_str("none");
    };
    out.push_str(title.listed.symbol.name.as_str())?;
    match title.index {
        Some(index) => write!(out, " at {index}"),
        None => Ok(()),
    }
}

fn say_among(
    out: &mut String,
    alloc: Global,
    symbols: &[Listed],
    asked: &str,
) -> Result<(), AllocError> {
    let text = Text::of(alloc, asked)?;
    let title = title_of(alloc, symbols, &text)?;
    letting_go(say_title(out, &title), title)
}

// A symbol without the name of its loop.
fn listed<'a>(symbol: &'a Symbol) -> Listed<'a> {
    Listed { symbol, copy: None }
}

/// Adds which of the symbols `one` and `many`, which has a loop, the text means, and at which index.
pub fn say_symbol(out: &mut String, alloc: Global, asked: &str) -> Result<(), AllocError> {
    let one = symbol(alloc, "one", false)?;
    let many = symbol(alloc, "many", true)?;
    let said = say_among(out, alloc, &[listed(&one), listed(&many)], asked);
    letting_go(said, (one, many))
}

const TITLES: &str = r#"one -> one
One -> none
one[0] -> none
many -> none
many[0] -> many at 0
many[12] -> many at 12
many[800] -> many at 800
many[999999999] -> many at 999999999
many[9999999999] -> none
Many[0] -> none
many[] -> none
many[01] -> none
many[-1] -> none
many[+1] -> none
many[1 -> none
many[1]] -> none
many[1]x -> none
many [1] -> none
nobody -> none
nobody[0] -> none"#;

#[test]
fn a_text_means_a_symbol_or_an_element_of_one(rt: HostRuntime) -> Result<(), Fail> {
    check(rt.alloc(), Question::Symbol, TITLES)
}
