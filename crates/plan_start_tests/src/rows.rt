// Rows of templates with facts, and how the facts are compared with what is known.
ghost use Rattle.std.specs.Prelude.{IfOk, MatchOption};
ghost use Rattle.arm_template.specs.States.{IsStated};
ghost use Rattle.plan_filling.specs.Steps.{Filled};
ghost use Rattle.plan_table.specs.Whole.{whole_of, rows_in};
ghost use Rattle.plan_start.specs.Sheets.{IsSheet};
ghost use Rattle.template_tree.specs.View.{template_tree};

use crate::work::push_known;
use arm_ids::Place;
use arm_template::{Template, read_template};
use arm_value::{Text, Value};
use plan_filling::sheet::Halt;
use plan_start::start::{Outcome, known_at_start};
use stated_names::stated_names_differ;
use std::alloc::{AllocError, Global};
use std::test::Fail;
use template_parameters::bind;
use template_parts::{Bound, Given};

const HEAD: &str = r#""$schema":"x/deploymentTemplate.json","contentVersion":"1.0.0.0""#;

const RESOURCE: &str = r#""type":"a.b/c","apiVersion":"1""#;

const DEPLOYMENT: &str = r#""type":"Microsoft.Resources/deployments","apiVersion":"1""#;

const INNER: &str = r#""mode":"Incremental","expressionEvaluationOptions":{"scope":"inner"}"#;

const OUTER: &str = r#""mode":"Incremental","expressionEvaluationOptions":{"scope":"outer"}"#;

/// Adds a line of a template, in which signs stand for members that many templates have.
pub fn add_line(text: &mut String, line: &str) -> Result<(), AllocError> {
    for c in line.chars() {
        match c {
            '§' => text.push_str(HEAD)?,
            '¤' => text.push_str(RESOURCE)?,
            '¶' => text.push_str(DEPLOYMENT)?,
            '«' => text.push_str(INNER)?,
            '»' => text.push_str(OUTER)?,
            _ => text.push(c)?,
        }
    }
    Ok(())
}

// The value of a JSON text.
fn value_of(alloc: Global, text: &str) -> Result<Value, Fail> {
    match Value::from_json(alloc, text.as_bytes()) {
        Ok(value) => Ok(value),
        Err(_) => Err(Fail::new(format_args!("{text} is no value"))),
    }
}

// The template that the text states.
fn template_of(alloc: Global, text: &str) -> Result<Template, Fail>
    ensures { IfOk result (λ t. IsStated (template_tree t)) }
{
    let value = value_of(alloc, text)?;
    match read_template(alloc, &value) {
        Ok(template) => Ok(template),
        Err(fault) => Err(Fail::new(format_args!("{text}: {fault}"))),
    }
}

fn place_of(alloc: Global) -> Result<Place, Fail> {
    Ok(Place {
        subscription: Text::of(alloc, "s")?,
        group: Text::of(alloc, "g")?,
        location: Text::of(alloc, "westeurope")?,
        deployment: Text::of(alloc, "first")?,
    })
}

// What the parameters of the template are bound to, where none is given.
fn bound_of(alloc: Global, template: &Template) -> Result<Bound, Fail> {
    let given = Given::new(alloc);
    match bind(alloc, template, &given) {
        Ok(bound) => Ok(bound),
        Err(_) => Err(Fail::new(format_args!("a parameter has no value"))),
    }
}

// What is found, in lines.
fn push_found(
    out: &mut String,
    alloc: Global,
    found: &Result<Outcome, Halt>,
) -> Result<(), AllocError>
    requires sheet { IfOk found.now (λ o. IsSheet o.start.register) }
    requires filled { IfOk found.now (λ o. MatchOption o.circle
        (Filled (whole_of o.start.register.table) (rows_in o.start.register.table))
        (λ _. Unit {0})) }
{
    match found {
        Ok(known) => push_known(out, alloc, known),
        Err(Halt::Limit(which, number)) => writeln!(out, "limit {} {number}", which.word()),
        Err(Halt::OutOfMemory) => out.push_str("out of memory\n"),
    }
}

/// What is known at the start of the deployment of the template that the text states, in lines.
pub fn known_of(alloc: Global, text: &str) -> Result<String, Fail> {
    let template = template_of(alloc, text)?;
    let bound = bound_of(alloc, &template)?;
    let place = place_of(alloc)?;
    let mut out = String::new(alloc);
    stated_names_differ();
    let found = known_at_start(alloc, &template, &bound, &place);
    push_found(&mut out, alloc, &found)?;
    Ok(out)
}

// Whether one of the lines is of the cell.
fn has_cell(told: &str, cell: &str) -> bool {
    for line in told.lines() {
        if line.split_once(" = ").unwrap_or((line, "")).0 == cell {
            return true;
        }
    }
    false
}

fn has_line(told: &str, wanted: &str) -> bool {
    for line in told.lines() {
        if line == wanted {
            return true;
        }
    }
    false
}

/// Fails where the fact is not among the lines. A fact that begins with `no` is that there is no such cell.
pub fn check_fact(told: &str, fact: &str) -> Result<(), Fail> {
    let holds = match fact.strip_prefix("no ") {
        Some(cell) => !has_cell(told, cell),
        None => has_line(told, fact),
    };
    if holds {
        return Ok(());
    }
    Err(Fail::new(format_args!("{fact} is not among\n{told}")))
}

// What comes after the word in the first line that begins with it.
fn after<'a>(told: &'a str, word: &str) -> Option<&'a str> {
    for line in told.lines() {
        if let Some(rest) = line.strip_prefix(word) {
            return Some(rest);
        }
    }
    None
}

/// Whether the tasks are those of the plain program.
pub fn has_same_tasks(told: &str) -> bool {
    match (after(told, "tasks"), after(told, "plainly")) {
        (Some(tasks), Some(plainly)) => tasks == plainly,
        _ => false,
    }
}

/// Compares each row of a table: a template, which may go on over several lines, then its facts, each after `> `, and
/// an empty line.
pub fn check(alloc: Global, rows: &str) -> Result<(), Fail> {
    let mut asked = String::new(alloc);
    let mut told = String::new(alloc);
    for line in rows.lines() {
        match line.strip_prefix("> ") {
            Some(fact) => {
                if told.is_empty() {
                    told = known_of(alloc, asked.as_str())?;
                }
                check_fact(told.as_str(), fact)?;
            }
            None if line.is_empty() => {
                asked.clear();
                told.clear();
            }
            None => add_line(&mut asked, line)?,
        }
    }
    Ok(())
}
