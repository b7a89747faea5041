// Rows of tables.

use crate::sample::{Sample, Slot};
use arm_ids::{Place, ResourceId};
use arm_value::{Text, Value};
use bicep_declared::{Declared, declare_file};
use bicep_eval::{Stop, evaluate_value};
use bicep_lexer::{Token, tokens};
use bicep_names::Outputs;
use bicep_parser::{File, parse};
use bicep_resolved::SourceValue;
use bicep_symbols::{FileNames, names_of};
use std::alloc::{AllocError, Global};
use std::test::Fail;

// The values of the variables that expressions may use, `o`, `a`, `t`, `yes`, `no`, `late`, `never` and `deep`: JSON,
// or `none` or `late`.
const VALUES: [&str; 8] = [
    "{\"a\":1,\"b\":{\"c\":[10,20]},\"n\":null}",
    "[1,2,3]",
    "\"text\"",
    "true",
    "false",
    "late",
    "none",
    DEEP,
];

// An array that nests 100 deep.
const DEEP: &str = "\
[[[[[[[[[[[[[[[[[[[[[[[[[[[[[[[[[[[[[[[[[[[[[[[[[[[[[[[[[[[[[[[[[[[[[[[[[[[[[[[[[[[[[[[[[[[[[[[[[[[[\
]]]]]]]]]]]]]]]]]]]]]]]]]]]]]]]]]]]]]]]]]]]]]]]]]]]]]]]]]]]]]]]]]]]]]]]]]]]]]]]]]]]]]]]]]]]]]]]]]]]]";

fn slot(alloc: Global, text: &str) -> Result<Slot, Fail> {
    match text {
        "late" => Ok(Slot::Late),
        "none" => Ok(Slot::Absent),
        _ => Ok(Slot::Known(Value::from_json(alloc, text.as_bytes())?)),
    }
}

fn push_slot(alloc: Global, slots: &mut Vec<Slot>, text: &str) -> Result<(), Fail> {
    match slot(alloc, text) {
        Ok(slot) => Ok(slots.push(slot)?),
        Err(fault) => Err(fault),
    }
}

fn slots(alloc: Global) -> Result<Vec<Slot>, Fail> {
    let mut slots = Vec::new(alloc);
    for text in VALUES {
        match push_slot(alloc, &mut slots, text) {
            Ok(()) => {}
            Err(fault) => return letting_go(Err(fault), slots),
        }
    }
    Ok(slots)
}

fn place(alloc: Global) -> Result<Place, Fail> {
    Ok(Place {
        subscription: Text::of(alloc, "s")?,
        group: Text::of(alloc, "g")?,
        location: Text::of(alloc, "westeurope")?,
        deployment: Text::of(alloc, "main")?,
    })
}

// The id and the state of the resources.
const ID: &str = "/subscriptions/s/resourceGroups/g/providers/T.N/a/x";

const STATE: &str =
    "{\"properties\":{\"p\":1,\"q\":{\"s\":[2]}},\"sku\":{\"name\":\"S1\"},\"kind\":null}";

fn parts(alloc: Global) -> Result<(Place, ResourceId, Value), Fail> {
    let id = ResourceId::read(alloc, ID)?;
    match Value::from_json(alloc, STATE.as_bytes()) {
        Ok(state) => match place(alloc) {
            Ok(place) => Ok((place, id, state)),
            Err(fault) => letting_go(Err(fault), (id, state)),
        },
        Err(fault) => letting_go(Err(fault.into()), id),
    }
}

fn sample(alloc: Global) -> Result<Sample, Fail> {
    match slots(alloc) {
        Ok(slots) => match parts(alloc) {
            Ok((place, id, state)) => Ok(Sample {
                place,
                slots,
                id,
                state,
            }),
            Err(fault) => letting_go(Err(fault), slots),
        },
        Err(fault) => Err(fault),
    }
}

// A file whose last variable is the expression.
fn source_of(alloc: Global, expression: &str) -> Result<String, AllocError> {
    format!(in alloc;
        "var o = 0\nvar a = 0\nvar t = 0\nvar yes = 0\nvar no = 0\nvar late = 0\nvar never = 0\n\
        var deep = 0\nresource r 'T.N/a@1' = {{ name: 'x' }}\nresource rs 'T.N/b@1' = [for x in a: {{ name: x }}]\n\
        var w = {expression}"
    )
}

// The answer; the part is dropped.
fn letting_go<T: Drop, R>(answer: R, _part: T) -> R {
    answer
}

fn printed(alloc: Global, value: &Value) -> Result<String, Fail> {
    Ok(String::from_utf8(value.to_json(alloc)?.into_vec())?)
}

fn shown(alloc: Global, found: Result<Value, Stop>) -> Result<String, Fail> {
    match found {
        Ok(value) => letting_go(printed(alloc, &value), value),
        Err(Stop::NoValue) => Ok(String::from_str(alloc, "none")?),
        Err(Stop::Waits(number)) => Ok(format!(in alloc; "waits for {number}")?),
        Err(Stop::OutOfMemory) => Err(AllocError.into()),
    }
}

fn value_in(alloc: Global, sample: &Sample, value: &SourceValue) -> Result<String, Fail> {
    shown(alloc, evaluate_value(alloc, sample, value, &[]))
}

fn sampled_value(alloc: Global, value: &SourceValue) -> Result<String, Fail> {
    match sample(alloc) {
        Ok(sample) => letting_go(value_in(alloc, &sample, value), sample),
        Err(fault) => Err(fault),
    }
}

fn last_value(alloc: Global, declarations: &[Declared]) -> Result<String, Fail> {
    match declarations.last() {
        Some(Declared::Variable(_, value)) => sampled_value(alloc, value),
        _ => Err(Fail::new(format_args!("no variable"))),
    }
}

fn declared_value(
    alloc: Global,
    names: &FileNames,
    outputs: &[Outputs],
    file: &File,
) -> Result<String, Fail> {
    match declare_file(alloc, &names.symbols, outputs, file.as_slice()) {
        Ok(found) => letting_go(last_value(alloc, found.declarations.as_slice()), found),
        Err(_) => Err(Fail::new(format_args!("a name means nothing"))),
    }
}

fn named_value(alloc: Global, names: &FileNames, file: &File) -> Result<String, Fail> {
    let mut outputs = Vec::new(alloc);
    match outputs.push(Outputs::new(alloc)) {
        Ok(()) => {
            let value = declared_value(alloc, names, outputs.as_slice(), file);
            letting_go(value, outputs)
        }
        Err(fault) => letting_go(Err(AllocError.into()), (outputs, fault)),
    }
}

fn file_value(alloc: Global, file: &File) -> Result<String, Fail> {
    match names_of(alloc, &[], file.as_slice()) {
        Ok(names) => letting_go(named_value(alloc, &names, file), names),
        Err(_) => Err(Fail::new(format_args!("a name is given twice"))),
    }
}

fn parsed_value(alloc: Global, tokens: &[Token]) -> Result<String, Fail> {
    match parse(alloc, tokens) {
        Ok(file) => letting_go(file_value(alloc, &file), file),
        Err(_) => Err(Fail::new(format_args!("no file"))),
    }
}

fn source_value(alloc: Global, source: &str) -> Result<String, Fail> {
    match tokens(alloc, source) {
        Ok(found) => letting_go(parsed_value(alloc, found.as_slice()), found),
        Err(_) => Err(Fail::new(format_args!("no tokens"))),
    }
}

fn value_of(alloc: Global, expression: &str) -> Result<String, Fail> {
    match source_of(alloc, expression) {
        Ok(source) => letting_go(source_value(alloc, source.as_str()), source),
        Err(fault) => Err(fault.into()),
    }
}

// Adds the row, where its expression has another value.
fn compare(faults: &mut String, row: &str, found: &str) -> Result<(), AllocError> {
    let wanted = row.split_once(" -> ").unwrap_or((row, "")).1;
    if wanted == found {
        return Ok(());
    }
    write!(faults, "{row} but {found}\n")
}

fn check_row(alloc: Global, faults: &mut String, row: &str) -> Result<(), Fail> {
    let expression = row.split_once(" -> ").unwrap_or((row, "")).0;
    match value_of(alloc, expression) {
        Ok(found) => Ok(letting_go(compare(faults, row, found.as_str()), found)?),
        Err(fault) => Err(fault),
    }
}

fn told(faults: &str) -> Result<(), Fail> {
    if faults.is_empty() {
        return Ok(());
    }
    Err(Fail::new(format_args!("{faults}")))
}

/// Fails where the expressions of rows have other values.
pub fn check(alloc: Global, table: &str) -> Result<(), Fail> {
    let mut faults = String::new(alloc);
    for row in table.lines() {
        match check_row(alloc, &mut faults, row) {
            Ok(()) => {}
            Err(fault) => return letting_go(Err(fault), faults),
        }
    }
    letting_go(told(faults.as_str()), faults)
}
