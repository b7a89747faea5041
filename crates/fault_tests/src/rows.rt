// Lines of templates and of wanted faults, and how faults are compared.

use arm_value::Value;
use std::alloc::Global;
use std::test::Fail;
use template_faults::template_fault;
use template_parts::TemplateFault;

const HEAD: &str = r#""$schema":"x/deploymentTemplate.json","contentVersion":"1.0.0.0""#;

const EMPTY: &str = r#","resources":[]"#;

const NAMED: &str = r#""type":"A.B/c","apiVersion":"1","name":"n""#;

const NESTED: &str = r#""type":"Microsoft.Resources/deployments","apiVersion":"1","name":"n""#;

// A template, in which signs stand for members that most have.
fn spelled(alloc: Global, text: &str) -> Result<String, Fail> {
    let mut spelled = String::new(alloc);
    for c in text.chars() {
        match c {
            '§' => spelled.push_str(HEAD)?,
            '¶' => {
                spelled.push_str(HEAD)?;
                spelled.push_str(EMPTY)?;
            }
            '@' => spelled.push_str(NAMED)?,
            '%' => spelled.push_str(NESTED)?,
            _ => spelled.push(c)?,
        }
    }
    Ok(spelled)
}

// A fault, as the tables write it.
fn written(alloc: Global, fault: &Option<TemplateFault>) -> Result<String, Fail> {
    match fault {
        None => Ok(String::from_str(alloc, "none")?),
        Some(TemplateFault::Missing(path)) => Ok(format!(in alloc; "Missing {path}")?),
        Some(TemplateFault::WrongForm(path)) => Ok(format!(in alloc; "WrongForm {path}")?),
        Some(TemplateFault::Limit(which, number)) => {
            let word = which.word();
            Ok(format!(in alloc; "Limit {word} {number}")?)
        }
        Some(TemplateFault::BadExpression(path)) => Ok(format!(in alloc; "BadExpression {path}")?),
        Some(TemplateFault::ReferenceInVariable(path)) => {
            Ok(format!(in alloc; "ReferenceInVariable {path}")?)
        }
        Some(TemplateFault::OutOfMemory) => Ok(String::from_str(alloc, "out of memory")?),
    }
}

// The value of a JSON text.
fn value_of(alloc: Global, text: &str) -> Result<Value, Fail> {
    match Value::from_json(alloc, text.as_bytes()) {
        Ok(value) => Ok(value),
        Err(_) => Err(Fail::new(format_args!("{text} states no value"))),
    }
}

// The fault of the value of a JSON text, as the tables write it.
fn fault_of(alloc: Global, text: &str) -> Result<String, Fail> {
    let value = value_of(alloc, text)?;
    let fault = template_fault(alloc, &value)?;
    written(alloc, &fault)
}

// Fails where the fault is another than wanted.
fn compare_fault(text: &str, found: &str, wanted: &str) -> Result<(), Fail> {
    if found == wanted {
        return Ok(());
    }
    Err(Fail::new(format_args!("{text} -> {wanted} but {found}")))
}

/// Fails where the template has another fault.
pub fn compare(alloc: Global, text: &str, wanted: &str) -> Result<(), Fail> {
    let text = spelled(alloc, text)?;
    let found = fault_of(alloc, text.as_str())?;
    compare_fault(text.as_str(), found.as_str(), wanted)
}

/// Compares each row of a table: the template, which may go on over several lines, an arrow, and the wanted fault.
pub fn compare_all(alloc: Global, rows: &str) -> Result<(), Fail> {
    let mut text = String::new(alloc);
    for line in rows.lines() {
        match line.split_once(" -> ") {
            Some((end, wanted)) => {
                text.push_str(end)?;
                compare(alloc, text.as_str(), wanted)?;
                text.clear();
            }
            None => text.push_str(line)?,
        }
    }
    Ok(())
}
