// The files of a random program.

use crate::drawing::{COUNT, DEPTH, Drawing, Drawn, Shape};
use std::alloc::AllocError;
use template_parts::Form;

const PARAMETERS: &str = "param a int\nparam c bool\nparam xs array\nparam at string\n";

// The main file has defaults.
const DEFAULTS: &str = "param a int = 3
param c bool = true
param xs array = [ 'p', 'q', 'r' ]
param at string = 'z'
";

const VALUES: &str = "var v0 = a + #
var v1 = c ? a * 2 : #
var v2 = '{${at}}${v0}'
var v3 = [for (x, i) in xs: i + v1]
var v4 = { x: xs, y: [ #, c ] }
output o0 int = v0 - a
output o1 string = '${v2}/${v1}'
output o2 array = [for x in xs: '${x}${v0}']
output o3 object = v4
";

// Adds a character, or a number in the place of `#`.
fn add_sign(out: &mut String, c: char, number: u32) -> Result<(), AllocError> {
    match c {
        '#' => write!(out, "{number}"),
        _ => out.push(c),
    }
}

// Adds a text with a number in it.
fn add(out: &mut String, text: &str, number: u32) -> Result<(), AllocError> {
    for c in text.chars() {
        add_sign(out, c, number)?;
    }
    Ok(())
}

// The condition of what is declared once.
fn condition(drawn: &Drawn) -> &'static str {
    match drawn.condition {
        2 => "if (c) ",
        3 => "if (!c) ",
        4 => "if (v1 > 4) ",
        _ => "",
    }
}

// The condition of what is in a loop.
fn condition_inside(drawn: &Drawn) -> &'static str {
    match drawn.condition {
        2 => "if (c) ",
        3 => "if (i != 1) ",
        4 => "if (v3[i] > 4) ",
        _ => "",
    }
}

// How a declaration begins. The modules of the main file are in `f.bicep`, and those of that file in `g/f.bicep`.
fn head(drawn: &Drawn, depth: u32) -> &'static str {
    if !drawn.shape.is_module() {
        return "resource r# 'Demo.Lab/things@1' = ";
    }
    if depth == DEPTH {
        "module m# 'f.bicep' = "
    } else {
        "module m# 'g/f.bicep' = "
    }
}

// The rest of a declaration.
fn rest(drawn: &Drawn) -> &'static str {
    match drawn.shape {
        Shape::One => "{ name: '${at}-r#', size: v0 }\n",
        Shape::Loop => "{ name: '${at}-r#-${x}', size: v0 + i }]\n",
        Shape::Parent => {
            "{\n  name: '${at}-r#'\n  resource k# 'parts' = if (a < 5) {\n  name: 'k${v1}'\n}\n}\n"
        }
        Shape::Module => {
            "{ name: '${at}-m#', params: { a: a + 1, c: !c, xs: take(xs, 2), at: '${at}m#' } }\n"
        }
        Shape::Modules => {
            "{ name: '${at}-m#-${x}', params: { a: v0 + i, c: c, xs: [ x ], at: '${at}m#${x}' } }]\n"
        }
    }
}

// Adds the loop, if there is one, and the condition.
fn add_condition(out: &mut String, drawn: &Drawn) -> Result<(), AllocError> {
    if drawn.shape.is_loop() {
        out.push_str("[for (x, i) in xs: ")?;
        return out.push_str(condition_inside(drawn));
    }
    out.push_str(condition(drawn))
}

fn add_declared(out: &mut String, drawn: &Drawn, depth: u32) -> Result<(), AllocError> {
    add(out, head(drawn, depth), drawn.number)?;
    add_condition(out, drawn)?;
    add(out, rest(drawn), drawn.number)?;
    if drawn.is_passed_on() {
        return add(out, "output q# string = m#.outputs.o1\n", drawn.number);
    }
    Ok(())
}

// The parameters of the file in which modules are so deep in one another.
fn parameters(depth: u32) -> &'static str {
    if depth == DEPTH { DEFAULTS } else { PARAMETERS }
}

fn push_file(out: &mut String, file: Drawing) -> Result<(), AllocError> {
    out.push_str(parameters(file.depth))?;
    add(out, VALUES, file.constant())?;
    for number in 0..COUNT {
        add_declared(out, &file.draw(number), file.depth)?;
    }
    Ok(())
}

// The files are the same in each form.
fn main_file(seed: u32) -> Drawing {
    Drawing {
        form: Form::One,
        seed,
        depth: DEPTH,
    }
}

/// Adds the files of the program of a seed.
pub fn push_source(out: &mut String, seed: u32) -> Result<(), AllocError> {
    let main = main_file(seed);
    push_file(out, main)?;
    out.push_str("\n--- f.bicep\n")?;
    push_file(out, main.inner())?;
    out.push_str("\n--- g/f.bicep\n")?;
    push_file(out, main.inner().inner())
}
