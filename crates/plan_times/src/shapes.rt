// Templates whose plans are timed.

use std::alloc::{AllocError, Global};

/// What a template has.
#[derive(Clone, Copy)]
pub enum Shape {
    /// So many nested deployments, each with 99 resources, of which 98 are of one loop and depend on the first.
    Parts(u32),
    /// Two loops of so many instances. Each instance of the second depends, by a name, on one of the first.
    Pairs(u32),
    /// Two loops of so many instances. Each instance of the second depends on the first loop.
    Loops(u32),
    /// So many variables. Each but the last has the value of the next.
    Chain(u32),
    /// So many nested deployments, each in the one before, which gives it its parameter.
    Scopes(u32),
}

/// The shapes that are timed.
pub const SHAPES: [Shape; 11] = [
    Shape::Parts(1),
    Shape::Parts(10),
    Shape::Parts(20),
    Shape::Pairs(200),
    Shape::Pairs(400),
    Shape::Loops(150),
    Shape::Loops(300),
    Shape::Chain(256),
    Shape::Chain(512),
    Shape::Scopes(14),
    Shape::Scopes(28),
];

const HEAD: &str = r#"{"$schema":"x/deploymentTemplate.json","contentVersion":"1.0.0.0","#;

const PARTS: &str = r#""resources":[{"type":"Microsoft.Resources/deployments","apiVersion":"1",
"name":"[format('part{0}', copyIndex())]","copy":{"name":"parts","count":"#;

const INNER: &str =
    r#"},"properties":{"mode":"Incremental","expressionEvaluationOptions":{"scope":"inner"},
"parameters":{"number":{"value":"[copyIndex()]"}},"template":"#;

const RESOURCES: &str = r#""parameters":{"number":{"type":"int"}},"resources":[
{"type":"A.B/c","apiVersion":"1","name":"[format('first{0}', parameters('number'))]"},
{"type":"A.B/c","apiVersion":"1","name":"[format('other{0}x{1}', parameters('number'), copyIndex())]",
"copy":{"name":"others","count":98},
"dependsOn":["[resourceId('A.B/c', format('first{0}', parameters('number')))]"],
"properties":{"size":"[copyIndex(1)]"}}]}}}]}"#;

const FIRST: &str =
    r#""resources":[{"type":"A.B/c","apiVersion":"1","name":"[format('a{0}', copyIndex())]",
"copy":{"name":"first","count":"#;

const SECOND: &str =
    r#"}},{"type":"A.B/c","apiVersion":"1","name":"[format('b{0}', copyIndex())]","dependsOn":["#;

const ONE: &str = r#""[resourceId('A.B/c', format('a{0}', copyIndex()))]""#;

const SCOPE: &str = r#""parameters":{"number":{"type":"int","defaultValue":1}},"resources":[
{"type":"Microsoft.Resources/deployments","apiVersion":"1","name":"inside",
"properties":{"mode":"Incremental","expressionEvaluationOptions":{"scope":"inner"},
"parameters":{"number":{"value":"[parameters('number')]"}},"template":"#;

const LAST: &str = r#""parameters":{"number":{"type":"int"}},"resources":[
{"type":"A.B/c","apiVersion":"1","name":"[format('last{0}', parameters('number'))]"}]}"#;

fn add_parts(text: &mut String, count: u32) -> Result<(), AllocError> {
    text.push_str(PARTS)?;
    write!(text, "{count}")?;
    text.push_str(INNER)?;
    text.push_str(HEAD)?;
    text.push_str(RESOURCES)
}

// Two loops of so many instances, of which those of the second have this element of `dependsOn`.
fn add_loops(text: &mut String, count: u32, element: &str) -> Result<(), AllocError> {
    text.push_str(FIRST)?;
    write!(text, "{count}")?;
    text.push_str(SECOND)?;
    text.push_str(element)?;
    write!(text, r#"],"copy":{{"name":"second","count":{count}}}}}]}}"#)
}

fn add_chain(text: &mut String, count: u32) -> Result<(), AllocError> {
    text.push_str(r#""resources":[],"variables":{"#)?;
    for number in 1..count {
        write!(
            text,
            r#""v{number}":"[variables('v{}')]","#,
            number.saturating_add(1)
        )?;
    }
    write!(text, r#""v{count}":"last"}}}}"#)
}

fn add_scopes(text: &mut String, count: u32) -> Result<(), AllocError> {
    for _ in 0..count {
        text.push_str(SCOPE)?;
        text.push_str(HEAD)?;
    }
    text.push_str(LAST)?;
    for _ in 0..count {
        text.push_str("}}]}")?;
    }
    Ok(())
}

/// The JSON text of a template of the shape.
pub fn spelled(alloc: Global, shape: Shape) -> Result<String, AllocError> {
    let mut text = String::new(alloc);
    text.push_str(HEAD)?;
    match shape {
        Shape::Parts(count) => add_parts(&mut text, count)?,
        Shape::Pairs(count) => add_loops(&mut text, count, ONE)?,
        Shape::Loops(count) => add_loops(&mut text, count, r#""first""#)?,
        Shape::Chain(count) => add_chain(&mut text, count)?,
        Shape::Scopes(count) => add_scopes(&mut text, count)?,
    }
    Ok(text)
}

/// What the program prints of the shape.
pub fn words(alloc: Global, shape: Shape) -> Result<String, AllocError> {
    let mut text = String::new(alloc);
    match shape {
        Shape::Parts(count) => write!(text, "{count}00 instances in nested scopes")?,
        Shape::Pairs(count) => write!(text, "{count} instances that depend on one each")?,
        Shape::Loops(count) => write!(text, "{count} instances that depend on {count} each")?,
        Shape::Chain(count) => write!(text, "{count} variables in a chain")?,
        Shape::Scopes(count) => write!(text, "{count} scopes in one another")?,
    }
    Ok(text)
}
