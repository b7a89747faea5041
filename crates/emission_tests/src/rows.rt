// Rows of tables.

use crate::sample::Sample;
use crate::shown::put;
use arm_expr::Expr;
use arm_value::Text;
use bicep_declared::{Declared, declare_file};
use bicep_found::join::let_go;
use bicep_lexer::tokens;
use bicep_names::Outputs;
use bicep_parser::{File, parse};
use bicep_resolved::SourceValue;
use bicep_symbols::{FileNames, names_of};
use emitted_expressions::{Turn, emitted, emitted_value};
use emitted_parts::accesses::plain_part;
use emitted_parts::calls::{call_none, call_one};
use emitted_parts::literals::word;
use std::alloc::{AllocError, Global};
use std::test::Fail;

// What expressions may use.
const FRONT: &str = r#"param p string
param xs array
var v = 0
resource r 'T.N/a@1' existing = { name: 'x' }
resource l 'T.N/a@1' existing = [for x in xs: { name: x }]
module m './m.bicep' = {}
module ms './m.bicep' = [for x in xs: {}]
var s = 0
"#;

const NAMES: [&str; 8] = ["p", "xs", "v", "r", "l", "m", "ms", "s"];

// The outputs of the modules.
const OUTPUTS: [&str; 2] = ["o", "last"];

fn texts(alloc: Global, names: &[&str]) -> Result<Vec<Text>, AllocError> {
    let mut texts = Vec::new(alloc);
    for name in names {
        texts.push(Text::of(alloc, name)?)?;
    }
    Ok(texts)
}

fn outputs(alloc: Global, names: &[&str]) -> Result<Outputs, Fail> {
    let mut outputs = Outputs::new(alloc);
    for name in names {
        let name = Text::of(alloc, name)?;
        match outputs.find(&name) {
            Some(_) => return Err(Fail::new(format_args!("an output is given twice"))),
            None => outputs.add(alloc, &name)?,
        }
    }
    Ok(outputs)
}

fn sample(alloc: Global) -> Result<Sample, Fail> {
    let names = texts(alloc, &NAMES)?;
    let outputs = texts(alloc, &OUTPUTS)?;
    Ok(Sample { names, outputs })
}

// A run of a loop over `xs` at `copyIndex()`.
fn turns(alloc: Global) -> Result<Vec<Turn>, AllocError> {
    let over = call_one(alloc, "parameters", word(alloc, "xs"));
    let mut turns = Vec::new(alloc);
    turns.push(Turn {
        item: plain_part(alloc, over, call_none(alloc, "copyIndex"))?,
        index: call_none(alloc, "copyIndex")?,
    })?;
    Ok(turns)
}

// What the value becomes; of a for-expression its body.
fn value_tree(alloc: Global, value: &SourceValue) -> Result<Expr, Fail> {
    let sample = sample(alloc)?;
    match value {
        SourceValue::Plain(_) => Ok(emitted_value(alloc, &sample, value, &[])?),
        SourceValue::Each(_, body) => {
            let turns = turns(alloc)?;
            Ok(emitted(alloc, &sample, body, turns.as_slice())?)
        }
    }
}

/// What the value of a variable becomes; of a for-expression its body.
pub fn tree_of(alloc: Global, variable: &Declared) -> Result<Expr, Fail> {
    match variable {
        Declared::Variable(_, value) => value_tree(alloc, value),
        _ => Err(Fail::new(format_args!("no variable"))),
    }
}

fn declared(alloc: Global, names: &FileNames, file: &File) -> Result<Vec<Declared>, Fail> {
    let mut all = Vec::new(alloc);
    all.push(Outputs::new(alloc))?;
    all.push(outputs(alloc, &OUTPUTS)?)?;
    match declare_file(alloc, &names.symbols, all.as_slice(), file.as_slice()) {
        Ok(declared) => Ok(declared.declarations),
        Err(_) => Err(Fail::new(format_args!("a name means nothing"))),
    }
}

fn parsed(alloc: Global, source: &str) -> Result<File, Fail> {
    match tokens(alloc, source) {
        Ok(found) => match parse(alloc, found.as_slice()) {
            Ok(file) => Ok(file),
            Err(_) => Err(Fail::new(format_args!("no file: {source}"))),
        },
        Err(_) => Err(Fail::new(format_args!("no tokens: {source}"))),
    }
}

fn file_declarations(alloc: Global, file: &File) -> Result<Vec<Declared>, Fail> {
    match names_of(alloc, &[1, 1], file.as_slice()) {
        Ok(names) => {
            let declarations = declared(alloc, &names, file);
            let_go(names);
            declarations
        }
        Err(fault) => {
            let_go(fault);
            Err(Fail::new(format_args!("a name is given twice")))
        }
    }
}

/// The declarations of a file that begins with what expressions may use.
pub fn declarations_of(alloc: Global, rest: &str) -> Result<Vec<Declared>, Fail> {
    let source = format!(in alloc; "{FRONT}{rest}")?;
    match parsed(alloc, source.as_str()) {
        Ok(file) => {
            let declarations = file_declarations(alloc, &file);
            let_go(file);
            declarations
        }
        Err(fault) => Err(fault),
    }
}

// The text of what a variable becomes.
fn put_tree(out: &mut String, alloc: Global, variable: &Declared) -> Result<(), Fail> {
    match tree_of(alloc, variable) {
        Ok(tree) => {
            let written = put(out, &tree);
            let_go(tree);
            Ok(written?)
        }
        Err(fault) => Err(fault),
    }
}

fn put_last(out: &mut String, alloc: Global, declarations: &[Declared]) -> Result<(), Fail> {
    match declarations.last() {
        Some(variable) => put_tree(out, alloc, variable),
        None => Ok(()),
    }
}

fn put_emission(out: &mut String, alloc: Global, expression: &str) -> Result<(), Fail> {
    let source = format!(in alloc; "var w = {expression}")?;
    match declarations_of(alloc, source.as_str()) {
        Ok(declarations) => {
            let written = put_last(out, alloc, declarations.as_slice());
            let_go(declarations);
            written
        }
        Err(fault) => Err(fault),
    }
}

// The row, where its expression becomes another.
fn fault_of(alloc: Global, row: &str) -> Result<String, Fail> {
    let (expression, wanted) = row.split_once(" -> ").unwrap_or((row, "an expression"));
    let mut found = String::new(alloc);
    put_emission(&mut found, alloc, expression)?;
    if found.as_str() == wanted {
        return Ok(String::new(alloc));
    }
    Ok(format!(in alloc; "{row} but {found}\n")?)
}

/// Fails where the expressions of rows become others.
pub fn check(alloc: Global, table: &str) -> Result<(), Fail> {
    let mut faults = String::new(alloc);
    for row in table.lines() {
        faults.push_str(fault_of(alloc, row)?.as_str())?;
    }
    if faults.is_empty() {
        return Ok(());
    }
    Err(Fail::new(format_args!("{faults}")))
}
