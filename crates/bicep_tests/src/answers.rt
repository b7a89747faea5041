// What the crates answer, as a text.

use crate::groupings::say_grouping;
use crate::rows::letting_go;
use crate::shapes::{say_first_and_last, say_last, say_shapes};
use bicep_lexer::{LexFault, Token, tokens};
use bicep_parser::{File, ParseFault, parse};
use std::alloc::{AllocError, Global};

/// What is asked of a text.
#[derive(Clone, Copy)]
pub enum Question {
    /// The shapes of a source's tokens.
    Shapes,
    /// And the offset and the text of the last token.
    Last,
    /// What the first and the last token mean.
    Values,
    /// The number of a source's statements.
    Statements,
    /// How the operators of an expression bind.
    Grouping,
}

// Adds the number of statements or how an operator binds, or why there is no file.
fn say_parsed(
    out: &mut String,
    question: Question,
    file: &Result<File, ParseFault>,
) -> Result<(), AllocError> {
    match file {
        Ok(file) => match question {
            Question::Grouping => say_grouping(out, file),
            _ => write!(out, "{}", file.len()),
        },
        Err(fault) => write!(out, "{fault}"),
    }
}

fn say_file(
    out: &mut String,
    alloc: Global,
    question: Question,
    tokens: &[Token],
) -> Result<(), AllocError> {
    let file = parse(alloc, tokens);
    letting_go(say_parsed(out, question, &file), file)
}

// Adds what is answered of the tokens, or why there are none.
fn say_lexed(
    out: &mut String,
    alloc: Global,
    question: Question,
    found: &Result<Vec<Token<'_>>, LexFault>,
) -> Result<(), AllocError> {
    match found {
        Ok(found) => match question {
            Question::Shapes => say_shapes(out, found.as_slice()),
            Question::Last => say_last(out, found.as_slice()),
            Question::Values => say_first_and_last(out, alloc, found.as_slice()),
            _ => say_file(out, alloc, question, found.as_slice()),
        },
        Err(fault) => write!(out, "{fault}"),
    }
}

fn say_source(
    out: &mut String,
    alloc: Global,
    question: Question,
    source: &str,
) -> Result<(), AllocError> {
    let found = tokens(alloc, source);
    letting_go(say_lexed(out, alloc, question, &found), found)
}

fn say_operators(out: &mut String, alloc: Global, expression: &str) -> Result<(), AllocError> {
    let source = format!(in alloc; "var a = {expression}\n")?;
    say_source(out, alloc, Question::Grouping, source.as_str())
}

/// Adds the answer to the question.
pub fn say(
    out: &mut String,
    alloc: Global,
    question: Question,
    text: &str,
) -> Result<(), AllocError> {
    match question {
        Question::Grouping => say_operators(out, alloc, text),
        _ => say_source(out, alloc, question, text),
    }
}
