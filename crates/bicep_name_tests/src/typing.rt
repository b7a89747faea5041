// The types of the expressions of a table.

use crate::rows::{add_row, letting_go, parsed};
use arm_value::{OutOfMemory, Text};
use bicep_declared::{Declared, DeclaredFile, declare_file};
use bicep_names::Outputs;
use bicep_parser::File;
use bicep_signatures::ValueType;
use bicep_symbols::{FileNames, NameFault, names_of};
use bicep_tree::TypeName;
use bicep_typing::{Typed, value_type};
use std::alloc::{AllocError, Global};
use std::test::Fail;

/// What each row goes on from. The outputs of the module are a text and an array.
pub const FRONT: &str = "param t string
param i int
param b bool
param o object
param a array
resource r 'T/x@1' = {
  name: 'r'
  resource c 'c' = {
    name: 'c'
  }
}
resource rs 'T/x@1' = [for x in a: { name: 'rs' }]
module m 'm.bicep' = {}
module ms 'm.bicep' = [for x in a: {}]
var v = json('1')
";

// The number of the module's file is 1.
const MODULES: [u32; 2] = [1, 1];

fn add_name(alloc: Global, outputs: &mut Outputs, name: &str) -> Result<(), OutOfMemory> {
    let name = Text::of(alloc, name)?;
    if outputs.find(&name).is_none() {
        outputs.add(alloc, &name)?;
    }
    Ok(())
}

fn add_both(alloc: Global, outputs: &mut Outputs) -> Result<(), OutOfMemory> {
    add_name(alloc, outputs, "text")?;
    add_name(alloc, outputs, "list")
}

/// The names of the outputs of both files.
pub fn names(alloc: Global) -> Result<Vec<Outputs>, OutOfMemory> {
    let mut module = Outputs::new(alloc);
    add_both(alloc, &mut module)?;
    let mut all = Vec::new(alloc);
    all.push(Outputs::new(alloc))?;
    all.push(module)?;
    Ok(all)
}

/// The types of the outputs of both files.
pub fn outputs(alloc: Global) -> Result<Vec<Vec<ValueType>>, OutOfMemory> {
    let mut module = Vec::new(alloc);
    module.push(ValueType::Text)?;
    module.push(ValueType::Array)?;
    let mut all = Vec::new(alloc);
    all.push(Vec::new(alloc))?;
    all.push(module)?;
    Ok(all)
}

fn named(kind: TypeName) -> ValueType {
    match kind {
        TypeName::String => ValueType::Text,
        TypeName::Int => ValueType::Int,
        TypeName::Bool => ValueType::Bool,
        TypeName::Object => ValueType::Object,
        TypeName::Array => ValueType::Array,
    }
}

/// The types of symbols; variables may be any value.
pub fn symbols(alloc: Global, declarations: &[Declared]) -> Result<Vec<ValueType>, OutOfMemory> {
    let mut types = Vec::new(alloc);
    for declared in declarations {
        let found = match declared {
            Declared::Parameter(_, kind) => named(*kind),
            _ => ValueType::Any,
        };
        types.push(found)?;
    }
    Ok(types)
}

// The type of the last variable.
fn last_type(alloc: Global, declarations: &[Declared]) -> Result<Option<Typed>, OutOfMemory> {
    let symbols = symbols(alloc, declarations)?;
    let outputs = outputs(alloc)?;
    match declarations.last() {
        Some(Declared::Variable(_, value)) => Ok(Some(value_type(&symbols, &outputs, value))),
        _ => Ok(None),
    }
}

fn type_in<E>(
    alloc: Global,
    declared: &Result<DeclaredFile, E>,
) -> Result<Option<Typed>, OutOfMemory> {
    match declared {
        Ok(declared) => last_type(alloc, declared.declarations.as_slice()),
        Err(_) => Ok(None),
    }
}

fn declared_type(
    alloc: Global,
    found: &Result<FileNames, NameFault>,
    outputs: &[Outputs],
    file: &File,
) -> Result<Option<Typed>, OutOfMemory> {
    let Ok(found) = found else {
        return Ok(None);
    };
    let declared = declare_file(alloc, &found.symbols, outputs, file.as_slice());
    letting_go(type_in(alloc, &declared), declared)
}

fn file_type(alloc: Global, file: &File) -> Result<Option<Typed>, OutOfMemory> {
    let outputs = names(alloc)?;
    let found = names_of(alloc, &MODULES, file.as_slice());
    letting_go(
        declared_type(alloc, &found, outputs.as_slice(), file),
        found,
    )
}

fn source_type(alloc: Global, file: &Option<File>) -> Result<Option<Typed>, OutOfMemory> {
    match file {
        Some(file) => file_type(alloc, file),
        None => Ok(None),
    }
}

const TYPES: [(&str, ValueType); 7] = [
    ("Any", ValueType::Any),
    ("Null", ValueType::Null),
    ("Text", ValueType::Text),
    ("Int", ValueType::Int),
    ("Bool", ValueType::Bool),
    ("Object", ValueType::Object),
    ("Array", ValueType::Array),
];

// Whether the word names the type.
fn is_named(word: &str, found: ValueType) -> bool {
    for row in TYPES {
        if row.0 == word && row.1 == found {
            return true;
        }
    }
    false
}

fn is_as_said(found: Option<Typed>, word: &str, fault: Option<usize>) -> bool {
    match found {
        Some(Ok(found)) => fault.is_none() && is_named(word, found),
        Some(Err(at)) => word.is_empty() && fault == Some(at),
        None => false,
    }
}

// Whether the expression has the type that the word names, or does not fit where its `^` is.
fn is_right(alloc: Global, word: &str, expression: &str) -> Result<bool, AllocError> {
    let mut source = String::from_str(alloc, FRONT)?;
    source.push_str("var w = ")?;
    let fault = add_row(&mut source, expression)?;
    let file = parsed(alloc, source.as_str());
    let found = letting_go(source_type(alloc, &file), file)?;
    Ok(is_as_said(found, word, fault))
}

/// Fails at the first row whose expression has another type.
pub fn check(alloc: Global, table: &str) -> Result<(), Fail> {
    for row in table.lines() {
        let (word, expression) = row.split_once('|').unwrap_or((row, ""));
        if !is_right(alloc, word, expression)? {
            return Err(Fail::new(format_args!("{row}")));
        }
    }
    Ok(())
}
