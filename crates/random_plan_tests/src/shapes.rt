// What random templates declare, and elements of `dependsOn` that name it.
//
// All names of a scope are a text that no other scope has, a dash, and a rest: `r0` for the resource of number 0,
// `r0x2` for an instance of its loop, `r0/c` for its child. A resource has a number below 5, and so has each of its
// instances.

use sample_deployments::signs::{add_meaning, meaning as sign_meaning};
use std::alloc::AllocError;

/// How deep templates nest in one another.
pub const DEPTH: u32 = 2;

/// A random template.
#[derive(Clone, Copy)]
pub struct Shape<'s> {
    /// How deep templates nest in it.
    pub depth: u32,
    /// How many resources it has, children apart.
    pub count: u32,
    /// What its resources are drawn from.
    pub seed: u32,
    /// The expression of the text that its names begin with.
    pub stem: &'s str,
}

/// A resource of a random template.
#[derive(Clone, Copy)]
pub struct Drawn {
    /// Its number in the template.
    pub number: u32,
    /// Whether it is a nested deployment.
    pub nested: bool,
    /// Whether the template in it sees the parameters around it.
    pub outer: bool,
    /// How many instances it has, where it has a loop.
    pub copies: Option<u32>,
    /// Whether it has a child.
    pub parent: bool,
    /// The instance that is named; none where the resource is.
    pub copy: Option<u32>,
}

/// The next random number below `below`, which is at most 65,536.
pub fn pick(seed: &mut u32, below: u32) -> u32 {
    *seed = seed.wrapping_mul(1_103_515_245).wrapping_add(12_345);
    (*seed >> 16) % below.max(1)
}

/// The resource of a number: each time the same.
pub fn draw(shape: &Shape, number: u32) -> Drawn {
    let mut seed = shape.seed.wrapping_add(number.wrapping_mul(2_654_435_769));
    let nested = pick(&mut seed, 3) == 0 && shape.depth > 0;
    let outer = pick(&mut seed, 2) == 0;
    let copies = match pick(&mut seed, 3) {
        0 => Some(pick(&mut seed, 5)),
        _ => None,
    };
    let parent = pick(&mut seed, 3) == 0 && !nested && copies.is_none();
    Drawn {
        number,
        nested,
        outer,
        copies,
        parent,
        copy: None,
    }
}

fn digit(number: u32) -> &'static str {
    match number {
        0 => "0",
        1 => "1",
        2 => "2",
        3 => "3",
        _ => "4",
    }
}

// What the name of an instance has after that of the resource.
fn index(copy: Option<u32>) -> &'static str {
    match copy {
        None => "",
        Some(0) => "x0",
        Some(1) => "x1",
        Some(2) => "x2",
        Some(3) => "x3",
        Some(_) => "x4",
    }
}

fn kind(drawn: &Drawn) -> &'static str {
    if drawn.nested {
        "Microsoft.Resources/deployments"
    } else {
        "a.b/c"
    }
}

// What a sign stands for.
fn meaning<'s>(shape: &Shape<'s>, drawn: &Drawn, c: char) -> Option<&'s str> {
    match c {
        '@' => Some(shape.stem),
        '%' => Some(digit(shape.depth)),
        '#' => Some(digit(drawn.number)),
        '*' => Some(digit(drawn.copies.unwrap_or(0))),
        '~' => Some(index(drawn.copy)),
        '$' => Some(kind(drawn)),
        _ => sign_meaning(c),
    }
}

/// Adds a part of a random template, in which signs stand for the stem, the depth, and what is drawn: its number, how
/// many instances it has, the index of the one that is named, and its type.
pub fn add(out: &mut String, shape: &Shape, drawn: &Drawn, line: &str) -> Result<(), AllocError> {
    for c in line.chars() {
        add_meaning(out, meaning(shape, drawn, c), c)?;
    }
    Ok(())
}

// How an element names a resource or an instance: as an id, or by an expression or a text, with a type before the name
// or not. A text serves in the root alone.
fn form(seed: &mut u32, depth: u32) -> &'static str {
    match pick(seed, if depth == DEPTH { 5 } else { 3 }) {
        0 => r#""[resourceId('$', format('{0}-R#~', @))]""#,
        1 => r#""[format('$/{0}-r#~', @)]""#,
        2 => r#""[format('{0}-r#~', @)]""#,
        3 => r#""$/z-R#~""#,
        _ => r#""z-R#~""#,
    }
}

// How an element names a child.
fn form_of_child(seed: &mut u32) -> &'static str {
    match pick(seed, 2) {
        0 => r#""[format('a.b/c/d/{0}-r#/c', @)]""#,
        _ => r#""[format('{0}-r#/c', @)]""#,
    }
}

/// Adds an element of `dependsOn` that names a resource of the template, its loop, an instance of it or its child.
pub fn push_element(out: &mut String, seed: &mut u32, shape: &Shape) -> Result<(), AllocError> {
    let mut drawn = draw(shape, pick(seed, shape.count));
    let part = pick(seed, 8);
    let text = match drawn.copies {
        Some(copies) if part < copies => {
            drawn.copy = Some(part);
            form(seed, shape.depth)
        }
        Some(_) => r#""L%#""#,
        None if drawn.parent && part > 3 => form_of_child(seed),
        None => form(seed, shape.depth),
    };
    add(out, shape, &drawn, text)
}
