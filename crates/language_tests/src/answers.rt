// What is asked of the texts of tables, and who answers.

use crate::environment::{empty, fill, place};
use crate::table::letting_go;
use crate::{brackets, forms, limits, missing, names, outputs, spelling, symbols, told};
use arm_env::env::Env;
use arm_value::{JsonFault, Value};
use std::alloc::{AllocError, Global};
use std::test::Fail;

/// What is asked of a text.
#[derive(Clone, Copy)]
pub enum Question {
    /// The value of an expression, in a template of the first form.
    Expression,
    /// The same in a template of the second form, which has symbols.
    InFormTwo,
    /// The same inside the name of a resource of that template.
    InsideName,
    /// The same as the title of a symbol.
    InTitle,
    /// The value of a tree of JSON.
    Tree,
    /// The value of an output of JSON.
    Output,
    /// The value of a loop of JSON: a name, a count and an input.
    Loop,
    /// The path to the part of a tree of JSON that has no value.
    Path,
    /// What `copyIndex` gives for an array of arguments.
    Index,
    /// The same without loops.
    IndexOutside,
    /// The same in loops of which none is the main one.
    IndexNearest,
    /// What a name means among deployments around and resources.
    Name,
    /// Which symbol it means.
    Symbol,
    /// What it means as a text of a template.
    Meaning,
    /// How it is written as a plain text of a template.
    Escaped,
    /// Whether brackets are at both its ends.
    Bracketed,
    /// How the expression that it spells is written.
    Written,
    /// The text that it spells.
    Spelled,
    /// Whether an expression that nests so is read.
    Nested,
    /// Whether a string of so many characters is written, and read with one blank more.
    Strung,
    /// Whether an int that is indexed so often is written.
    Indexed,
}

// Adds what is answered of JSON.
fn say_of_value(
    out: &mut String,
    alloc: Global,
    env: &Env,
    question: Question,
    value: &Value,
) -> Result<(), AllocError> {
    match question {
        Question::Tree => told::say_tree(out, alloc, env, value),
        Question::Output => outputs::say_output(out, alloc, env, value),
        Question::Loop => outputs::say_loop(out, alloc, env, value),
        Question::Path => missing::say_path(out, alloc, env, value),
        Question::Index => names::say_index(out, alloc, env.loops.as_slice(), value),
        Question::IndexOutside => names::say_index(out, alloc, &[], value),
        Question::IndexNearest => names::say_nearest(out, alloc, value),
        _ => out.push_str("no answer"),
    }
}

fn say_of_read(
    out: &mut String,
    alloc: Global,
    env: &Env,
    question: Question,
    read: &Result<Value, JsonFault>,
) -> Result<(), AllocError> {
    match read {
        Ok(value) => say_of_value(out, alloc, env, question, value),
        Err(_) => out.push_str("no JSON"),
    }
}

fn say_of_json(
    out: &mut String,
    alloc: Global,
    env: &Env,
    question: Question,
    asked: &str,
) -> Result<(), AllocError> {
    let read = Value::from_json(alloc, asked.as_bytes());
    letting_go(say_of_read(out, alloc, env, question, &read), read)
}

// Adds what is answered in an environment.
fn say_in(
    out: &mut String,
    alloc: Global,
    env: &Env,
    question: Question,
    asked: &str,
) -> Result<(), AllocError> {
    match question {
        Question::Expression | Question::InFormTwo | Question::InsideName => {
            told::say_expression(out, alloc, env, asked)
        }
        Question::InTitle => forms::say_titled(out, alloc, env, asked),
        Question::Name => names::say_name(out, alloc, env, asked),
        _ => say_of_json(out, alloc, env, question, asked),
    }
}

// Adds the entries that an environment has for the question.
fn fill_for(alloc: Global, env: &mut Env, question: Question) -> Result<(), Fail> {
    match question {
        Question::Name => names::fill(alloc, env),
        Question::InFormTwo => forms::fill(alloc, env, false),
        Question::InsideName => forms::fill(alloc, env, true),
        _ => fill(alloc, env),
    }
}

fn fill_and_say(
    out: &mut String,
    alloc: Global,
    env: &mut Env,
    question: Question,
    asked: &str,
) -> Result<(), Fail> {
    fill_for(alloc, env, question)?;
    Ok(say_in(out, alloc, env, question, asked)?)
}

// Adds what is answered in an environment that is made for the question.
fn say_around(
    out: &mut String,
    alloc: Global,
    question: Question,
    asked: &str,
) -> Result<(), Fail> {
    let place = place(alloc, "g")?;
    let mut env = empty(alloc, &place);
    fill_and_say(out, alloc, &mut env, question, asked)
}

/// Adds what is answered.
pub fn say(out: &mut String, alloc: Global, question: Question, asked: &str) -> Result<(), Fail> {
    let said = match question {
        Question::Symbol => symbols::say_symbol(out, alloc, asked),
        Question::Meaning => brackets::say_meaning(out, asked),
        Question::Escaped => brackets::say_escaped(out, alloc, asked),
        Question::Bracketed => brackets::say_bracketed(out, asked),
        Question::Written => spelling::say_written(out, alloc, asked),
        Question::Spelled => spelling::say_spelled(out, alloc, asked),
        Question::Nested => limits::say_nested(out, alloc, asked),
        Question::Strung => limits::say_strung(out, alloc, asked),
        Question::Indexed => limits::say_indexed(out, alloc, asked),
        _ => return say_around(out, alloc, question, asked),
    };
    Ok(said?)
}
