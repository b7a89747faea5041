// Rows of templates, and how what is written of them is compared.

ghost use Rattle.std.specs.Prelude.{IfOk};
ghost use Rattle.arm_template.specs.States.{IsStated};
ghost use Rattle.template_tree.specs.View.{template_tree};

use arm_template::{Template, read_template, write_template};
use arm_value::Value;
use std::alloc::Global;
use std::test::Fail;

const HEAD: &str = r#""$schema":"x/deploymentTemplate.json","contentVersion":"1.0.0.0""#;

const QUICKSTART: &str =
    "https://schema.management.azure.com/schemas/2019-04-01/deploymentTemplate.json#";

// Adds a line of a row, in which signs stand for members that most templates have.
fn add_line(text: &mut String, line: &str) -> Result<(), Fail> {
    for c in line.chars() {
        match c {
            '§' => text.push_str(HEAD)?,
            '¤' => text.push_str(QUICKSTART)?,
            _ => text.push(c)?,
        }
    }
    Ok(())
}

// The value of a JSON text.
fn value_of(alloc: Global, text: &str) -> Result<Value, Fail> {
    match Value::from_json(alloc, text.as_bytes()) {
        Ok(value) => Ok(value),
        Err(_) => Err(Fail::new(format_args!("{text} is no value"))),
    }
}

// The template that the value states.
fn read(alloc: Global, text: &str, value: &Value) -> Result<Template, Fail>
    ensures { IfOk result (λ t. IsStated (template_tree t)) }
{
    match read_template(alloc, value) {
        Ok(template) => Ok(template),
        Err(fault) => Err(Fail::new(format_args!("{text}: {fault}"))),
    }
}

// What is written of the template that the value states.
fn written(alloc: Global, text: &str, value: &Value) -> Result<Value, Fail> {
    let template = read(alloc, text, value)?;
    Ok(write_template(alloc, &template)?)
}

// Fails where the value is written otherwise.
fn compare(alloc: Global, asked: &str, found: &Value, wanted: &str) -> Result<(), Fail> {
    let bytes = found.to_json(alloc)?;
    let text = str::from_utf8(bytes.as_slice()).unwrap_or("no text");
    if text == wanted {
        return Ok(());
    }
    Err(Fail::new(format_args!("{asked} gives {text}")))
}

// Drops what is owned beside a failure.
fn failed<T: Drop>(_owned: T, fail: Fail) -> Result<Value, Fail> {
    Err(fail)
}

// What is written of the template that the value states; fails where it is otherwise than wanted.
fn written_so(alloc: Global, asked: &str, value: &Value, wanted: &str) -> Result<Value, Fail> {
    let found = written(alloc, asked, value)?;
    match compare(alloc, asked, &found, wanted) {
        Ok(()) => Ok(found),
        Err(fail) => failed(found, fail),
    }
}

// The same of the template that the text states.
fn written_once(alloc: Global, asked: &str, wanted: &str) -> Result<Value, Fail> {
    let value = value_of(alloc, asked)?;
    written_so(alloc, asked, &value, wanted)
}

// Reads and writes a template twice.
fn compare_trip(alloc: Global, asked: &str, wanted: &str) -> Result<(), Fail> {
    let once = written_once(alloc, asked, wanted)?;
    match written_so(alloc, wanted, &once, wanted) {
        Ok(_twice) => Ok(()),
        Err(fail) => Err(fail),
    }
}

/// Compares each row of a table: a template, which may go on over several lines, then a line `->` and what is written
/// of it, and an empty line.
pub fn compare_all(alloc: Global, rows: &str) -> Result<(), Fail> {
    let mut asked = String::new(alloc);
    let mut wanted = String::new(alloc);
    let mut is_asked = true;
    for line in rows.lines() {
        match line.trim_start() {
            "->" => is_asked = false,
            "" => {
                compare_trip(alloc, asked.as_str(), wanted.as_str())?;
                asked.clear();
                wanted.clear();
                is_asked = true;
            }
            part if is_asked => add_line(&mut asked, part)?,
            part => add_line(&mut wanted, part)?,
        }
    }
    Ok(())
}

/// Compares each row of a table: a template, which may go on over several lines, that is written as it is read, and an
/// empty line. A line that begins with `#` says what the template is.
pub fn compare_same(alloc: Global, rows: &str) -> Result<(), Fail> {
    let mut text = String::new(alloc);
    for line in rows.lines() {
        let part = line.trim_start();
        if part.is_empty() {
            compare_trip(alloc, text.as_str(), text.as_str())?;
            text.clear();
        } else if !part.starts_with('#') {
            add_line(&mut text, part)?;
        }
    }
    Ok(())
}
