// Random templates: resources of which bodies read the states of others, and an output.

use sample_deployments::signs::add_line;
use std::alloc::{AllocError, Global};

// The names of the resources.
const NAMES: [&str; 6] = ["r0", "r1", "r2", "r3", "r4", "r5"];

/// The next of a row of numbers below 2,147,483,648.
pub fn following(number: u64) -> u64 {
    (number % 2147483648 * 1103515245 + 12345) % 2147483648
}

/// A number below the limit, by a number of the row.
pub fn below(number: u64, limit: u64) -> u64 {
    if limit == 0 {
        0
    } else {
        number / 65536 % limit
    }
}

// A number of a row of its own for each place.
fn at_place(seed: u64, place: u64) -> u64 {
    following(following(seed % 2147483648 + place % 1000 * 7919))
}

// A place below the count; none where that is 0.
fn place_below(number: u64, count: usize) -> Option<usize> {
    if count == 0 {
        return None;
    }
    usize::try_from(below(following(number), count as u64)).ok()
}

/// A resource of a random template.
#[derive(Clone, Copy)]
pub struct Drawn {
    /// Whether its condition is true.
    pub included: bool,
    /// The resource whose state its body reads.
    pub reads: Option<usize>,
    /// The resource before it that it depends on.
    pub depends: Option<usize>,
}

/// How many resources the template of a seed has.
pub fn count_of(seed: u64) -> usize {
    usize::try_from(below(at_place(seed, 1), 7)).unwrap_or(0)
}

// What the body of a resource reads: now and then the state of any resource, often that of one before it.
fn reads_of(seed: u64, number: usize) -> Option<usize> {
    let random = at_place(seed, number as u64 % 100 * 10 + 12);
    match below(random, 12) {
        0 => place_below(random, count_of(seed)),
        1..=6 => place_below(random, number),
        _ => None,
    }
}

// What a resource depends on, in one of four cases.
fn depends_of(seed: u64, number: usize) -> Option<usize> {
    let random = at_place(seed, number as u64 % 100 * 10 + 13);
    if below(random, 4) == 0 {
        place_below(random, number)
    } else {
        None
    }
}

/// The resource of a number: each time the same.
pub fn resource_of(seed: u64, number: usize) -> Drawn {
    Drawn {
        included: below(at_place(seed, number as u64 % 100 * 10 + 11), 16) > 0,
        reads: reads_of(seed, number),
        depends: depends_of(seed, number),
    }
}

/// The resource whose state the output reads; none where there is no output.
pub fn output_of(seed: u64) -> Option<usize> {
    let random = at_place(seed, 2);
    if below(random, 3) > 0 {
        place_below(random, count_of(seed))
    } else {
        None
    }
}

/// Whether the put of a resource is refused.
pub fn is_refused(seed: u64, number: usize) -> bool {
    number == 2 && below(at_place(seed, 3), 3) == 0
}

/// The name of a resource.
pub fn name_of(seed: u64, number: usize) -> &'static str {
    if is_refused(seed, number) {
        return "quota";
    }
    match NAMES.get(number) {
        Some(name) => name,
        None => "other",
    }
}

fn push_state(text: &mut String, seed: u64, number: usize) -> Result<(), AllocError> {
    let name = name_of(seed, number);
    write!(text, "reference(resourceId('a.b/c','{name}')).n")
}

// Adds what the body is: one more than what is read, or 1.
fn push_body(text: &mut String, seed: u64, drawn: &Drawn) -> Result<(), AllocError> {
    match drawn.reads {
        Some(other) => {
            text.push_str(r#","properties":{"n":"[add("#)?;
            push_state(text, seed, other)?;
            text.push_str(r#", 1)]"}}"#)
        }
        None => text.push_str(r#","properties":{"n":1}}"#),
    }
}

fn push_head(text: &mut String, seed: u64, number: usize, drawn: &Drawn) -> Result<(), AllocError> {
    add_line(text, if number > 0 { ",{¤" } else { "{¤" })?;
    let name = name_of(seed, number);
    write!(text, ",\"name\":\"{name}\"")?;
    text.push_str(if drawn.included {
        ""
    } else {
        r#","condition":false"#
    })
}

fn push_resource(text: &mut String, seed: u64, number: usize) -> Result<(), AllocError> {
    let drawn = resource_of(seed, number);
    push_head(text, seed, number, &drawn)?;
    if let Some(other) = drawn.depends {
        let name = name_of(seed, other);
        write!(text, ",\"dependsOn\":[\"{name}\"]")?;
    }
    push_body(text, seed, &drawn)
}

fn push_output(text: &mut String, seed: u64) -> Result<(), AllocError> {
    if let Some(number) = output_of(seed) {
        text.push_str(r#","outputs":{"o":{"type":"int","value":"["#)?;
        push_state(text, seed, number)?;
        text.push_str(r#"]"}}"#)?;
    }
    text.push('}')
}

/// The template of a seed.
pub fn template(alloc: Global, seed: u64) -> Result<String, AllocError> {
    let mut text = String::new(alloc);
    add_line(&mut text, r#"{§,"resources":["#)?;
    for number in 0..count_of(seed) {
        push_resource(&mut text, seed, number)?;
    }
    text.push(']')?;
    push_output(&mut text, seed)?;
    Ok(text)
}
