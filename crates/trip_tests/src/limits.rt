// The length of an expression.

use arm_template::{Template, TemplateFault, Which, read_template};
use arm_value::Value;
use std::alloc::Global;
use std::test::Fail;

// A template with a variable whose expression has so many characters, with its brackets.
fn spelled(alloc: Global, count: usize) -> Result<String, Fail> {
    let mut text = String::new(alloc);
    text.push_str(
        r#"{"$schema":"x/deploymentTemplate.json","contentVersion":"1","resources":[],"#,
    )?;
    text.push_str(r#""variables":{"v":"[concat('"#)?;
    for _ in 12..count {
        text.push('x')?;
    }
    text.push_str(r#"')]"}}"#)?;
    Ok(text)
}

// The number that is beyond the limit of an expression's characters, or 0 where a template was read.
fn number_told(found: Result<Template, TemplateFault>) -> Result<u64, Fail> {
    match found {
        Ok(_) => Ok(0),
        Err(TemplateFault::Limit(Which::Expression, length)) => Ok(length),
        Err(fault) => Err(Fail::new(format_args!("{fault}"))),
    }
}

// The same of the template that the text states.
fn length_told(alloc: Global, text: &str) -> Result<u64, Fail> {
    match Value::from_json(alloc, text.as_bytes()) {
        Ok(value) => number_told(read_template(alloc, &value)),
        Err(_) => Err(Fail::new(format_args!("no value"))),
    }
}

#[test]
fn an_expression_has_at_most_24576_characters(rt: HostRuntime) -> Result<(), Fail> {
    let text = spelled(rt.alloc(), 24576)?;
    assert!(rt; length_told(rt.alloc(), text.as_str())? == 0);
    let text = spelled(rt.alloc(), 24577)?;
    assert!(rt; length_told(rt.alloc(), text.as_str())? == 24577);
    Ok(())
}
