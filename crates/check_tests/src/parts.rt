// Expressions of declarations, by paths.
//
// The steps of a path are separated by dots. The first step into a resource or a module is a field, `over` for what its
// loop runs over, or `if` for its condition; `over` alone is what the loop of a variable runs over. Other steps are the
// name of a member, with `/over` for what a loop there runs over, and otherwise that loop is taken for its body; or the
// number of an item, an argument, an operand or a hole, and 0 for the expression before an access and 1 for its index.

use bicep_declared::{Declared, DeclaredBody};
use bicep_resolved::{Property, Reach, Source, SourceValue};
use resolved_program::ResolvedFile;

fn either<'a>(number: usize, first: &'a Source, second: &'a Source) -> Option<&'a Source> {
    match number {
        0 => Some(first),
        1 => Some(second),
        _ => None,
    }
}

fn element_index(number: usize, reach: &Reach) -> Option<&Source> {
    match reach {
        Reach::Element(_, _, index) if number == 1 => Some(index),
        _ => None,
    }
}

// The part of that number.
fn numbered(number: usize, e: &Source) -> Option<&Source> {
    match e {
        Source::Interpolated(_, _, holes) => Some(&holes.get(number)?.value),
        Source::Array(_, items) => items.get(number),
        Source::Call(_, _, arguments) => arguments.get(number),
        Source::Instance(reach) => element_index(number, reach),
        Source::Field(reach, _, _) => element_index(number, reach),
        Source::Output(reach, _, _) => element_index(number, reach),
        Source::Member(whole, _, _) => either(number, whole, whole),
        Source::Index(whole, _, index) => either(number, whole, index),
        Source::Prefix(_, _, operand) => either(number, operand, operand),
        Source::Binary(_, first, second) => either(number, first, second),
        Source::Conditional(condition, yes, no) => match number {
            0 => Some(condition),
            1 => Some(yes),
            _ => Some(no),
        },
        Source::Name(_, _) | Source::Literal(_, _) | Source::Object(_, _) => None,
    }
}

fn value_part<'a>(value: &'a SourceValue, part: &str) -> &'a Source {
    match value {
        SourceValue::Plain(e) => e,
        SourceValue::Each(each, body) => { if part == "over" { &each.over } else { body } }
    }
}

fn member<'a>(members: &'a [Property], step: &str) -> Option<&'a Source> {
    let (name, part) = step.split_once('/').unwrap_or((step, ""));
    for member in members {
        if member.name.as_str() == name {
            return Some(value_part(&member.value, part));
        }
    }
    None
}

fn inner<'a>(e: &'a Source, step: &str) -> Option<&'a Source> {
    match e {
        Source::Object(_, members) => member(members.as_slice(), step),
        _ => numbered(step.parse::<usize>().ok()?, e),
    }
}

fn part_at<'a>(e: &'a Source, path: &str) -> Option<&'a Source> {
    if path.is_empty() {
        return Some(e);
    }
    let mut found = e;
    for step in path.split('.') {
        found = inner(found, step)?;
    }
    Some(found)
}

fn value_at<'a>(value: &'a SourceValue, path: &str) -> Option<&'a Source> {
    if path == "over" {
        return Some(value_part(value, path));
    }
    part_at(value_part(value, ""), path)
}

fn field<'a>(body: &'a DeclaredBody, step: &str) -> Option<&'a Source> {
    match step {
        "over" => Some(&body.each.as_ref()?.over),
        "if" => body.condition.as_ref(),
        _ => member(body.fields.as_slice(), step),
    }
}

fn field_at<'a>(body: &'a DeclaredBody, path: &str) -> Option<&'a Source> {
    let (step, path) = path.split_once('.').unwrap_or((path, ""));
    part_at(field(body, step)?, path)
}

fn declared_at<'a>(declared: &'a Declared, path: &str) -> Option<&'a Source> {
    match declared {
        Declared::Parameter(_, _) => None,
        Declared::ParameterWith(_, _, value) => part_at(value, path),
        Declared::Variable(_, value) => value_at(value, path),
        Declared::Resource(_, _, _, body) => field_at(body, path),
        Declared::Module(_, body) => field_at(body, path),
    }
}

/// The expression at the end of a path from the declaration of the symbol of that name.
pub fn symbol_at<'a>(file: &'a ResolvedFile, name: &str, path: &str) -> Option<&'a Source> {
    for (number, entry) in file.entries.iter().enumerate() {
        if entry.name.as_str() == name {
            return declared_at(file.declared.declarations.get(number)?, path);
        }
    }
    None
}

/// The expression at the end of a path from the output of that name.
pub fn output_at<'a>(file: &'a ResolvedFile, name: &str, path: &str) -> Option<&'a Source> {
    for (number, output) in file.outputs.iter().enumerate() {
        if output.as_str() == name {
            return value_at(&file.declared.outputs.get(number)?.value, path);
        }
    }
    None
}
