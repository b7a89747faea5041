// Random templates: the tasks and the needs are those of a plain program.

use crate::comparing::difference;
use crate::shapes::{DEPTH, Drawn, Shape, add, draw, pick, push_element};
use sample_deployments::deployment::deployment_of;
use sample_deployments::signs::add_line;
use std::alloc::{AllocError, Global};
use std::rt::HostRuntime;
use std::test::Fail;

const HELD: &str = r#"< /subscriptions/s/resourceGroups/g/providers/a.b/c/z-r0
< /subscriptions/s/resourceGroups/g/providers/a.b/c/Z-r1
< /subscriptions/s/resourceGroups/g/providers/a.b/c/z-r1/d/c
< /subscriptions/s/resourceGroups/g/providers/a.b/c/zi0-r1
< /subscriptions/s/resourceGroups/g/providers/a.b/c/o
< /subscriptions/s/resourceGroups/g/providers/a.b/c/o/d/k
< /subscriptions/s/resourceGroups/h/providers/a.b/c/o"#;

const ROOT: &str = r#"{§,"parameters":{"at":{"type":"string","defaultValue":"z"}},"resources":["#;

const ONE: &str = r#"{"type":"$","apiVersion":"1","name":"[format('{0}-r#', @)]""#;

const LOOPED: &str =
    r#"{"type":"$","apiVersion":"1","name":"[format('{0}-r#x{1}', @, copyIndex())]",
"copy":{"name":"l%#","count":*"#;

const OUTER: &str = r#","properties":{»,"template":{§,"resources":["#;

// The stem here is what the names of the scope begin with.
const INNER: &str = r#","properties":{«,"parameters":{"at":{"value":"[@]"}},
"template":{§,"parameters":{"at":{"type":"string","defaultValue":"z"}},"resources":["#;

// How a loop ends.
fn batches(seed: &mut u32) -> &'static str {
    match pick(seed, 4) {
        0 => r#","mode":"serial","batchSize":1}"#,
        1 => r#","mode":"serial","batchSize":2}"#,
        _ => "}",
    }
}

fn condition(seed: &mut u32, looped: bool) -> &'static str {
    match pick(seed, 6) {
        0 => r#","condition":false"#,
        1 if looped => r#","condition":"[equals(mod(copyIndex(), 2), 1)]""#,
        _ => "",
    }
}

// Adds a resource up to its elements of `dependsOn`.
fn push_head(
    out: &mut String,
    seed: &mut u32,
    shape: &Shape,
    drawn: &Drawn,
) -> Result<(), AllocError> {
    if drawn.copies.is_some() {
        add(out, shape, drawn, LOOPED)?;
        out.push_str(batches(seed))?;
        out.push_str(condition(seed, true))
    } else {
        add(out, shape, drawn, ONE)?;
        out.push_str(condition(seed, false))
    }
}

// Adds none to two elements.
fn push_depends(out: &mut String, seed: &mut u32, shape: &Shape) -> Result<(), AllocError> {
    out.push_str(r#","dependsOn":["#)?;
    for number in 0..pick(seed, 3) {
        out.push_str(if number > 0 { "," } else { "" })?;
        push_element(out, seed, shape)?;
    }
    out.push(']')
}

// Adds a child.
fn push_child(out: &mut String, seed: &mut u32, shape: &Shape) -> Result<(), AllocError> {
    out.push_str(r#","resources":[{"type":"d","apiVersion":"1","name":"c""#)?;
    out.push_str(condition(seed, false))?;
    push_depends(out, seed, shape)?;
    out.push_str("}]")
}

// Adds a resource, but for the template in it.
fn push_resource(
    out: &mut String,
    seed: &mut u32,
    shape: &Shape,
    drawn: &Drawn,
) -> Result<(), AllocError> {
    push_head(out, seed, shape, drawn)?;
    push_depends(out, seed, shape)?;
    if drawn.parent {
        return push_child(out, seed, shape);
    }
    Ok(())
}

// An expression of a text that names in the scope of a nested deployment begin with, and no others do.
fn stem_form(drawn: &Drawn) -> &'static str {
    match (drawn.outer, drawn.copies.is_some()) {
        (true, true) => "format('{0}o#x{1}', @, copyIndex('l%#'))",
        (true, false) => "format('{0}o#', @)",
        (false, true) => "format('{0}i#x{1}', @, copyIndex('l%#'))",
        (false, false) => "format('{0}i#', @)",
    }
}

fn stem_inside(alloc: Global, shape: &Shape, drawn: &Drawn) -> Result<String, AllocError> {
    let mut stem = String::new(alloc);
    add(&mut stem, shape, drawn, stem_form(drawn))?;
    Ok(stem)
}

// The shape of the template in a nested deployment, and how it begins.
fn shape_inside<'s>(
    out: &mut String,
    seed: &mut u32,
    shape: &Shape,
    drawn: &Drawn,
    stem: &'s str,
) -> Result<Shape<'s>, AllocError> {
    let mut inside = Shape {
        depth: shape.depth.saturating_sub(1),
        count: pick(seed, 5),
        seed: *seed,
        stem,
    };
    if drawn.outer {
        add(out, shape, drawn, OUTER)?;
    } else {
        add(out, &inside, drawn, INNER)?;
        inside.stem = "parameters('at')";
    }
    Ok(inside)
}

// Adds the resources of a template in which templates nest so deep, and how it ends.
fn push_template(
    out: &mut String,
    seed: &mut u32,
    shape: &Shape,
    depth: u32,
    alloc: Global,
) -> Result<(), AllocError> {
    for number in 0..shape.count {
        let drawn = draw(shape, number);
        out.push_str(if number > 0 { "," } else { "" })?;
        push_resource(out, seed, shape, &drawn)?;
        if drawn.nested && depth > 0 {
            let stem = stem_inside(alloc, shape, &drawn)?;
            let inside = shape_inside(out, seed, shape, &drawn, stem.as_str())?;
            push_template(out, seed, &inside, depth - 1, alloc)?;
            out.push('}')?;
        }
        out.push('}')?;
    }
    out.push_str("]}")
}

fn random_template(alloc: Global, mut seed: u32) -> Result<String, AllocError> {
    let mut text = String::new(alloc);
    let shape = Shape {
        depth: DEPTH,
        count: pick(&mut seed, 5),
        seed,
        stem: "parameters('at')",
    };
    add_line(&mut text, ROOT)?;
    push_template(&mut text, &mut seed, &shape, DEPTH, alloc)?;
    Ok(text)
}

// Compares the tasks and the needs of the template that the text states.
fn check_text(alloc: Global, text: &str) -> Result<(), Fail> {
    let asked = deployment_of(alloc, text, HELD)?;
    let found = difference(alloc, &asked);
    asked.discard();
    match found? {
        Some(word) => Err(Fail::new(format_args!("{text} gives {word}"))),
        None => Ok(()),
    }
}

fn check_random(alloc: Global, seed: u32) -> Result<(), Fail> {
    let text = random_template(alloc, seed)?;
    check_text(alloc, text.as_str())
}

#[test]
fn plans_of_random_templates(rt: HostRuntime) -> Result<(), Fail> {
    for seed in 0..200 {
        check_random(rt.alloc(), seed)?;
    }
    Ok(())
}
