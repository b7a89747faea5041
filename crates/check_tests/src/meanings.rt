// What a name stands for, in words.

use bicep_resolved::{Field, Meaning, Reach, Source, Target};
use resolved_program::{ResolvedFile, ResolvedProgram};
use std::alloc::AllocError;

// A word, and the name of the symbol of that number.
fn write_symbol(
    out: &mut String,
    file: &ResolvedFile,
    word: &str,
    number: usize,
) -> Result<(), AllocError> {
    out.push_str(word)?;
    match file.entries.get(number) {
        Some(entry) => out.push_str(entry.name.as_str()),
        None => out.push_str("?"),
    }
}

fn write_meaning(
    out: &mut String,
    file: &ResolvedFile,
    meaning: Meaning,
) -> Result<(), AllocError> {
    match meaning {
        Meaning::Parameter(number) => write_symbol(out, file, "parameter ", number),
        Meaning::Variable(number) => write_symbol(out, file, "variable ", number),
        Meaning::Item(around) => write!(out, "item {around}"),
        Meaning::Index(around) => write!(out, "index {around}"),
    }
}

fn write_target(out: &mut String, file: &ResolvedFile, target: Target) -> Result<(), AllocError> {
    match target {
        Target::Resource(number) => write_symbol(out, file, "resource ", number),
        Target::ResourceLoop(number) => write_symbol(out, file, "resources ", number),
        Target::Module(number, _) => write_symbol(out, file, "module ", number),
        Target::ModuleLoop(number, _) => write_symbol(out, file, "modules ", number),
    }
}

fn write_reach(out: &mut String, file: &ResolvedFile, reach: &Reach) -> Result<(), AllocError> {
    match reach {
        Reach::Symbol(_, target) => write_target(out, file, *target),
        Reach::Element(_, target, _) => {
            out.push_str("one of ")?;
            write_target(out, file, *target)
        }
    }
}

fn field_name(field: &Field) -> &'static str {
    match field {
        Field::Id => "id",
        Field::Name => "name",
        Field::Type => "type",
        Field::ApiVersion => "apiVersion",
        Field::Properties => "properties",
        Field::Outputs => "outputs",
        Field::Other(_) => "state",
    }
}

// The name of the output of that number of a module's file.
fn output_name(program: &ResolvedProgram, target: Target, number: usize) -> Option<&str> {
    match target {
        Target::Resource(_) | Target::ResourceLoop(_) => None,
        Target::Module(_, file) | Target::ModuleLoop(_, file) => {
            Some(program.files.get(file)?.outputs.get(number)?.as_str())
        }
    }
}

/// What a name of the main file stands for.
pub fn write_source(
    out: &mut String,
    program: &ResolvedProgram,
    file: &ResolvedFile,
    e: &Source,
) -> Result<(), AllocError> {
    match e {
        Source::Name(_, found) => write_meaning(out, file, *found),
        Source::Instance(reach) => write_reach(out, file, reach),
        Source::Field(reach, _, field) => {
            out.push_str(field_name(field))?;
            out.push_str(" of ")?;
            write_reach(out, file, reach)
        }
        Source::Output(reach, _, number) => {
            out.push_str(output_name(program, reach.target(), *number).unwrap_or("?"))?;
            out.push_str(" of ")?;
            write_reach(out, file, reach)
        }
        _ => out.push_str("no name"),
    }
}
