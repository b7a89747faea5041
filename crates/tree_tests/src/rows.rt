// Rows of tables.

use crate::sample::Sample;
use arm_value::{Text, Value};
use bicep_declared::{Declared, declare_file};
use bicep_lexer::tokens;
use bicep_names::Outputs;
use bicep_parser::{File, parse};
use bicep_resolved::{Source, SourceValue};
use bicep_symbols::{FileNames, names_of};
use measured_trees::Beyond;
use std::alloc::{AllocError, Global};
use std::test::Fail;
use tree_building::Written;
use tree_texts::{TreeFault, built_tree, built_value};

// The variables that values may use: 71, of which the sample says what they become.
fn put_front(out: &mut String) -> Result<(), AllocError> {
    for number in 0..71u32 {
        write!(out, "var v{number} = 0\n")?;
    }
    Ok(())
}

fn shown(alloc: Global, value: &Value) -> Result<String, AllocError> {
    let bytes = value.to_json(alloc)?;
    String::from_str(alloc, str::from_utf8(bytes.as_slice()).unwrap_or("no text"))
}

fn limit(alloc: Global, beyond: Beyond) -> Result<String, AllocError> {
    match beyond {
        Beyond::Characters(count) => format!(in alloc; "{count} characters"),
        Beyond::Depth(depth) => format!(in alloc; "{depth} deep"),
        Beyond::TooDeep => String::from_str(alloc, "too deep"),
    }
}

// What a value becomes inside one array or object.
fn tree_of(alloc: Global, e: &Source) -> Result<String, AllocError> {
    match built_tree(alloc, &Sample, e, 1) {
        Ok(value) => shown(alloc, &value),
        Err(TreeFault::Beyond(beyond)) => limit(alloc, beyond),
        Err(TreeFault::Memory) => Err(AllocError),
    }
}

// What a loop that is a whole value becomes.
fn loop_of(alloc: Global, name: Option<&Text>, value: &SourceValue) -> Result<String, AllocError> {
    match built_value(alloc, &Sample, name, value, 1) {
        Ok(Written::Tree(value)) => shown(alloc, &value),
        Ok(Written::Each(looped)) => {
            let input = shown(alloc, &looped.input)?;
            format!(in alloc; "{} times {}", looped.count.as_str(), input.as_str())
        }
        Err(TreeFault::Beyond(beyond)) => limit(alloc, beyond),
        Err(TreeFault::Memory) => Err(AllocError),
    }
}

// What a value becomes; of a loop first that of a variable with the name `w`, and then that of an output.
fn value_of(alloc: Global, value: &SourceValue) -> Result<String, AllocError> {
    match value {
        SourceValue::Plain(e) => tree_of(alloc, e),
        SourceValue::Each(_, _) => {
            let name = Text::of(alloc, "w")?;
            let named = loop_of(alloc, Some(&name), value)?;
            let unnamed = loop_of(alloc, None, value)?;
            format!(in alloc; "{} or {}", named.as_str(), unnamed.as_str())
        }
    }
}

fn last_tree(alloc: Global, declarations: &[Declared]) -> Result<String, Fail> {
    match declarations.last() {
        Some(Declared::Variable(_, value)) => Ok(value_of(alloc, value)?),
        _ => Err(Fail::new(format_args!("no variable"))),
    }
}

fn declared_tree(alloc: Global, names: &FileNames, file: &File) -> Result<String, Fail> {
    let mut outputs = Vec::new(alloc);
    outputs.push(Outputs::new(alloc))?;
    match declare_file(alloc, &names.symbols, outputs.as_slice(), file.as_slice()) {
        Ok(declared) => last_tree(alloc, declared.declarations.as_slice()),
        Err(_) => Err(Fail::new(format_args!("a name means nothing"))),
    }
}

fn file_tree(alloc: Global, file: &File) -> Result<String, Fail> {
    match names_of(alloc, &[], file.as_slice()) {
        Ok(names) => declared_tree(alloc, &names, file),
        Err(_) => Err(Fail::new(format_args!("a name is given twice"))),
    }
}

fn parsed(alloc: Global, source: &str) -> Result<File, Fail> {
    match tokens(alloc, source) {
        Ok(found) => match parse(alloc, found.as_slice()) {
            Ok(file) => Ok(file),
            Err(_) => Err(Fail::new(format_args!("no file: {source}"))),
        },
        Err(_) => Err(Fail::new(format_args!("no tokens: {source}"))),
    }
}

fn found_of(alloc: Global, value: &str) -> Result<String, Fail> {
    let mut source = String::new(alloc);
    put_front(&mut source)?;
    source.push_str("var w = ")?;
    source.push_str(value)?;
    let file = parsed(alloc, source.as_str())?;
    file_tree(alloc, &file)
}

// The row, where its value becomes something else.
fn fault_of(alloc: Global, row: &str) -> Result<String, Fail> {
    let (value, wanted) = row.split_once(" -> ").unwrap_or((row, "a value"));
    let found = found_of(alloc, value)?;
    if found.as_str() == wanted {
        return Ok(String::new(alloc));
    }
    Ok(format!(in alloc; "{row} but {found}\n")?)
}

/// Fails where the values of rows become something else.
pub fn check(alloc: Global, table: &str) -> Result<(), Fail> {
    let mut faults = String::new(alloc);
    for row in table.lines() {
        faults.push_str(fault_of(alloc, row)?.as_str())?;
    }
    if faults.is_empty() {
        return Ok(());
    }
    Err(Fail::new(format_args!("{faults}")))
}
