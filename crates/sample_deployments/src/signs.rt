//! Signs in the texts of templates, each in the place of members that many templates have.

use std::alloc::AllocError;

const HEAD: &str = r#""$schema":"x/deploymentTemplate.json","contentVersion":"1.0.0.0""#;

const RESOURCE: &str = r#""type":"a.b/c","apiVersion":"1""#;

const DEPLOYMENT: &str = r#""type":"Microsoft.Resources/deployments","apiVersion":"1""#;

const INNER: &str = r#""mode":"Incremental","expressionEvaluationOptions":{"scope":"inner"}"#;

const OUTER: &str = r#""mode":"Incremental","expressionEvaluationOptions":{"scope":"outer"}"#;

/// The members that a sign is in the place of: the head of a template, the type and the version of a resource or of a
/// nested deployment, or the mode and the scope of a nested deployment.
pub fn meaning(c: char) -> Option<&'static str> {
    match c {
        '§' => Some(HEAD),
        '¤' => Some(RESOURCE),
        '¶' => Some(DEPLOYMENT),
        '«' => Some(INNER),
        '»' => Some(OUTER),
        _ => None,
    }
}

/// Adds what a character means, or the character itself where it has no meaning.
pub fn add_meaning(text: &mut String, meaning: Option<&str>, c: char) -> Result<(), AllocError> {
    match meaning {
        Some(meaning) => text.push_str(meaning),
        None => text.push(c),
    }
}

/// Adds a line of a template with the members that its signs are in the place of.
pub fn add_line(text: &mut String, line: &str) -> Result<(), AllocError> {
    for c in line.chars() {
        add_meaning(text, meaning(c), c)?;
    }
    Ok(())
}
