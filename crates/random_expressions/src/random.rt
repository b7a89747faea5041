//! Random expressions with their values.

use crate::values::{copied, joined};
use bicep_found::join::let_go;
use std::alloc::{AllocError, Global};

/// An expression of Bicep with its value.
#[derive(Drop)]
pub struct Made {
    /// Its text.
    pub source: String,
    /// Its value as compact JSON, or `none` where it has no value.
    pub value: String,
}

// What an expression of a kind is made of: the kinds of its parts (`i` a number, `t` a text, `b` true or false, `l` a
// list of numbers), its text with `@` for each part, and what its value is.
const NUMBERS: &str = r#"ii|(@ + @)|add
ii|(@ - @)|sub
ii|(@ * @)|mul
ii|(@ / @)|div
ii|(@ % @)|mod
i|-@|negative
bii|(@ ? @ : @)|if
bii|(@ ? @ : @)|if
t|length(@)|length
l|length(@)|length
li|@[@]|item
l|@[0]|front
ii|{ a: @, b: @ }.b|second
ii|{ a: @, 'b c': @ }['b c']|second
ii|({ a: @ }.?b ?? @)|second
ii|([ @ ][?7] ?? @)|second
i|(null ?? @)|first
ii|(@ ?? @)|either"#;

const TEXTS: &str = r#"it|'{${@}}|${@}'|braces
tt|'${@}${@}x'|side
btt|(@ ? @ : @)|if
t|toLower(@)|lower
tt|concat(@, @)|concat
tt|{ a: @, b: @ }.a|first
t|[ @ ][0]|first
tt|(@ ?? @)|either"#;

const TRUTHS: &str = r#"ii|(@ < @)|less
ii|(@ <= @)|at_most
ii|(@ > @)|greater
ii|(@ >= @)|at_least
ii|(@ == @)|equal
tt|(@ == @)|equal
tt|(@ != @)|differ
tt|(@ =~ @)|alike
tt|(@ !~ @)|unlike
bb|(@ && @)|and
bb|(@ || @)|or
b|!@|not
bbb|(@ ? @ : @)|if"#;

const LISTS: &str = r#"ii|[ @, @ ]|pair
iil|concat([ @, @ ], @)|longer
bll|(@ ? @ : @)|if
ll|{ a: [ @ ], b: @ }.a[0]|first"#;

// Expressions without parts, and their values.
const NUMBER_LEAVES: &str = r#"0|0
3|3
12|12
9223372036854775807|9223372036854775807
v|7
s.n|5
l[0].name|3
l[2].name|5
l[3].name|none
l[1].properties.n|7
l[10].properties.n|8
ms[0].outputs.last|33"#;

const TEXT_LEAVES: &str = r#"'a'|"a"
'B{0}'|"B{0}"
'it\'s'|"it's"
'[x]'|"[x]"
''|""
p|"Pp"
s.id|"T.N/s"
l[0].id|"T.N/a/0"
l[1].location|"T.N/a/1"
l[2].properties.id|"T.N/a/2"
l[v].type|""
ms[1].outputs.o|"Microsoft.Resources/deployments/4"
ms[3].outputs.o|none"#;

const TRUTH_LEAVES: &str = r#"true|true
false|false"#;

const LIST_LEAVES: &str = r#"xs|[3,4,5]
[ 1 ]|[1]
[ 2, -2 ]|[2,-2]"#;

// The same inside a loop over `xs` at its second item.
const LOOP_LEAVES: &str = r#"x|4
i|1
l[i].name|4
l[x].properties.n|7
(x + i)|5"#;

const LOOP_TEXTS: &str = r#"l[i].id|"T.N/a/1"
l[x].location|"T.N/a/4"
'${x}'|"4"
ms[i].outputs.o|"Microsoft.Resources/deployments/4""#;

// The next random number below `below`, which is at most 65,536.
fn pick(seed: &mut u32, below: u32) -> u32 {
    *seed = seed.wrapping_mul(1_103_515_245).wrapping_add(12_345);
    (*seed >> 16) % below.max(1)
}

// The line of a table at a random place.
fn any_line<'a>(seed: &mut u32, table: &'a str) -> &'a str {
    let count = table.lines().count();
    let place = pick(seed, 997) as usize % count.max(1);
    table.lines().nth(place).unwrap_or("")
}

fn table_of(kind: char) -> &'static str {
    match kind {
        'i' => NUMBERS,
        't' => TEXTS,
        'b' => TRUTHS,
        _ => LISTS,
    }
}

fn leaves_of(kind: char) -> &'static str {
    match kind {
        'i' => NUMBER_LEAVES,
        't' => TEXT_LEAVES,
        'b' => TRUTH_LEAVES,
        _ => LIST_LEAVES,
    }
}

fn loop_leaves_of(kind: char) -> &'static str {
    match kind {
        'i' => LOOP_LEAVES,
        't' => LOOP_TEXTS,
        'b' => TRUTH_LEAVES,
        _ => LIST_LEAVES,
    }
}

// Both, where both are there.
fn both<A: Drop, B: Drop>(
    one: Result<A, AllocError>,
    other: Result<B, AllocError>,
) -> Result<(A, B), AllocError> {
    match one {
        Ok(one) => match other {
            Ok(other) => Ok((one, other)),
            Err(_) => {
                let_go(one);
                Err(AllocError)
            }
        },
        Err(_) => {
            let_go(other);
            Err(AllocError)
        }
    }
}

fn paired(
    source: Result<String, AllocError>,
    value: Result<String, AllocError>,
) -> Result<Made, AllocError> {
    let (source, value) = both(source, value)?;
    Ok(Made { source, value })
}

// An expression without parts.
fn leaf(alloc: Global, seed: &mut u32, inside: bool, kind: char) -> Result<Made, AllocError> {
    let table = if inside && pick(seed, 2) == 0 {
        loop_leaves_of(kind)
    } else {
        leaves_of(kind)
    };
    let (source, value) = any_line(seed, table).split_once('|').unwrap_or(("", ""));
    paired(copied(alloc, source), copied(alloc, value))
}

fn source_at(parts: &[Made], place: usize) -> &str {
    match parts.get(place) {
        Some(part) => part.source.as_str(),
        None => "",
    }
}

fn put_both(out: &mut String, piece: &str, source: &str) -> Result<(), AllocError> {
    out.push_str(piece)?;
    out.push_str(source)
}

// Writes the text of an expression of parts.
fn put_source(out: &mut String, form: &str, parts: &[Made]) -> Result<(), AllocError> {
    for (place, piece) in form.split('@').enumerate() {
        put_both(out, piece, source_at(parts, place))?;
    }
    Ok(())
}

fn source_of(alloc: Global, form: &str, parts: &[Made]) -> Result<String, AllocError> {
    let mut out = String::new(alloc);
    put_source(&mut out, form, parts)?;
    Ok(out)
}

// An expression of parts, by a line of a table without the kinds of the parts.
fn joint(alloc: Global, line: &str, parts: &[Made]) -> Result<Made, AllocError> {
    let (form, word) = line.rsplit_once('|').unwrap_or((line, ""));
    paired(source_of(alloc, form, parts), joined(alloc, word, parts))
}

fn whole(
    alloc: Global,
    line: &str,
    parts: Result<Vec<Made>, AllocError>,
) -> Result<Made, AllocError> {
    match parts {
        Ok(parts) => {
            let made = joint(alloc, line, parts.as_slice());
            let_go(parts);
            made
        }
        Err(_) => Err(AllocError),
    }
}

// The parts and one more.
fn with(
    parts: Result<Vec<Made>, AllocError>,
    one: Result<Made, AllocError>,
) -> Result<Vec<Made>, AllocError> {
    let (mut parts, one) = both(parts, one)?;
    match parts.push(one) {
        Ok(()) => Ok(parts),
        Err(refused) => {
            let_go((parts, refused));
            Err(AllocError)
        }
    }
}

// The kinds of the parts of an expression, by a line of a table.
fn kinds_of(line: &str) -> &str {
    line.split_once('|').unwrap_or(("", line)).0
}

// The rest of the line.
fn form_of(line: &str) -> &str {
    line.split_once('|').unwrap_or(("", line)).1
}

// An expression of a kind that nests so deep.
fn expression(
    alloc: Global,
    seed: &mut u32,
    inside: bool,
    kind: char,
    depth: u32,
) -> Result<Made, AllocError> {
    if depth == 0 || pick(seed, 5) == 0 {
        return leaf(alloc, seed, inside, kind);
    }
    let line = any_line(seed, table_of(kind));
    let mut parts = Ok(Vec::new(alloc));
    for kind in kinds_of(line).chars() {
        let one = expression(alloc, seed, inside, kind, depth - 1);
        parts = with(parts, one);
    }
    whole(alloc, form_of(line), parts)
}

fn any_kind(seed: &mut u32) -> char {
    match pick(seed, 4) {
        0 => 'i',
        1 => 't',
        2 => 'b',
        _ => 'l',
    }
}

// Adds a variable of the expression, which may be the body of a loop over `xs`.
fn put_variable(
    out: &mut String,
    number: usize,
    inside: bool,
    source: &str,
) -> Result<(), AllocError> {
    write!(out, "var w{number} = ")?;
    if inside {
        out.push_str("[for (x, i) in xs: ")?;
    }
    out.push_str(source)?;
    out.push_str(if inside { "]\n" } else { "\n" })?;
    Ok(())
}

/// Adds a variable to a file, and its random expression to a list. Half of the variables are loops over `xs`, and the
/// value of the expression is then that of its body at the second item.
///
/// The expression may use the parameters `p`, which is `Pp`, and `xs`, which is `[3,4,5]`; the variable `v`, which is
/// 7; the resource `s` and the loop `l` of resources over `xs`; and the loop `ms` of modules over `xs` with the outputs
/// `o` and `last`.
pub fn add_variable(
    alloc: Global,
    seed: &mut u32,
    out: &mut String,
    all: &mut Vec<Made>,
) -> Result<(), AllocError> {
    let inside = pick(seed, 2) == 0;
    let kind = any_kind(seed);
    let one = expression(alloc, seed, inside, kind, 4)?;
    put_variable(out, all.len(), inside, one.source.as_str())?;
    all.push(one)?;
    Ok(())
}
