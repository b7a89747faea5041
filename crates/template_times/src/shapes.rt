// Templates of about 4 MB.

use std::alloc::{AllocError, Global};

/// What a template of about 4 MB mostly has.
#[derive(Clone, Copy)]
pub enum Shape {
    /// 800 resources, each with 20 short expressions and 210 short texts.
    Mixed,
    /// 800 resources, each with 72 short expressions.
    Expressions,
    /// 800 resources, each with 300 short texts and numbers.
    Texts,
    /// One variable with an array of 199,000 texts.
    Items,
}

/// All shapes.
pub const SHAPES: [Shape; 4] = [Shape::Mixed, Shape::Expressions, Shape::Texts, Shape::Items];

impl Shape {
    /// What the program prints of the shape.
    pub fn words(self) -> &'static str {
        match self {
            Shape::Mixed => "16,000 expressions and 168,000 texts in 800 resources",
            Shape::Expressions => "57,600 expressions in 800 resources",
            Shape::Texts => "240,000 texts in 800 resources",
            Shape::Items => "199,000 texts in a variable",
        }
    }
}

const HEAD: &str = r#"{"$schema":"x/deploymentTemplate.json","contentVersion":"1.0.0.0","#;

const PARAMETER: &str = r#""parameters":{"location":{"type":"string","defaultValue":"here"}},"#;

const EXPRESSION: &str = r#""[concat(parameters('location'), '-', resourceGroup().name)]""#;

const TEXT: &str = r#""a text""#;

// The members of a body: so many, each with this value.
fn add_members(
    alloc: Global,
    text: &mut String,
    letter: &str,
    count: u32,
    value: &str,
) -> Result<(), AllocError> {
    for i in 0..count {
        let name = format!(in alloc; ",\"{letter}{i}\":")?;
        text.push_str(name.as_str())?;
        text.push_str(value)?;
    }
    Ok(())
}

// 800 resources, each with so many expressions and texts in its body.
fn add_resources(
    alloc: Global,
    text: &mut String,
    expressions: u32,
    texts: u32,
) -> Result<(), AllocError> {
    text.push_str("\"resources\":[")?;
    for i in 0..800 {
        let name = format!(in alloc;
            "{{\"type\":\"A.B/c\",\"apiVersion\":\"1\",\"name\":\"n{i}\""
        )?;
        text.push_str(name.as_str())?;
        add_members(alloc, text, "e", expressions, EXPRESSION)?;
        add_members(alloc, text, "t", texts, TEXT)?;
        text.push_str(if i < 799 { "}," } else { "}]}" })?;
    }
    Ok(())
}

// A variable with so many texts.
fn add_items(text: &mut String, count: u32) -> Result<(), AllocError> {
    text.push_str(r#""resources":[],"variables":{"v":["a text""#)?;
    for _ in 1..count {
        text.push_str(r#","a text of an array""#)?;
    }
    text.push_str("]}}")
}

/// The JSON text of a template of the shape.
pub fn spelled(alloc: Global, shape: Shape) -> Result<String, AllocError> {
    let mut text = String::new(alloc);
    text.push_str(HEAD)?;
    text.push_str(PARAMETER)?;
    match shape {
        Shape::Mixed => add_resources(alloc, &mut text, 20, 210)?,
        Shape::Expressions => add_resources(alloc, &mut text, 72, 0)?,
        Shape::Texts => add_resources(alloc, &mut text, 0, 300)?,
        Shape::Items => add_items(&mut text, 199_000)?,
    }
    Ok(text)
}
