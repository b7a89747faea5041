// The lines of outputs.

ghost use Rattle.std.specs.Prelude.{◌≡◌, ◌++◌, IfOk, OnOk};
ghost use Rattle.std.specs.List.Sorted.{IsPermutation};
ghost use Rattle.lock_rules.specs.Texts.{text_cmp};
ghost use Rattle.deployment_reports.specs.Lines.{is_secret, line_of, line_text, shown, shown_of, text_of};
ghost use Rattle.deployment_reports.specs.Lines.{AreInOrder, EndsWithOutputs};

use crate::dropping::{letting_go, run_out};
use arm_value::{Bytes, OutOfMemory, Text};
use std::alloc::Global;
use std::cmp::Ordering;
use task_standings::RootOutput;
use template_parts::ValueType;

/// The line of an output.
#[derive(Drop)]
pub struct OutputLine {
    /// The name of the output, with its letters as they are spelled.
    pub name: Text,
    /// The value as compact JSON.
    pub value: Bytes,
}

// Whether the values of the type are secret.
fn is_secret(kind: ValueType) -> bool
    ensures { result ≡ is_secret kind }
{
    match kind {
        ValueType::String => false,
        ValueType::SecureString => true,
        ValueType::Int => false,
        ValueType::Bool => false,
        ValueType::Object => false,
        ValueType::SecureObject => true,
        ValueType::Array => false,
    }
}

// The line of an output.
fn line_of(alloc: Global, output: &RootOutput) -> Result<OutputLine, OutOfMemory>
    ensures { IfOk result (λ l. l ≡ line_of output.now) }
{
    let name = output.name.copy(alloc)?;
    match output.value.to_json(alloc) {
        Ok(value) => Ok(OutputLine { name, value }),
        Err(_) => run_out(name),
    }
}

// Adds the line of an output that is not secret.
fn add_shown(
    alloc: Global,
    lines: &mut Vec<OutputLine>,
    output: &RootOutput,
) -> Result<(), OutOfMemory>
    ensures { OnOk result (lines.new.items ≡ lines.old.items ++ shown_of output.now) }
{
    if is_secret(output.kind) {
        return Ok(());
    }
    let line = line_of(alloc, output)?;
    lines.push(line)?;
    Ok(())
}

// Adds the lines of the outputs that are not secret.
fn add_all_shown(
    alloc: Global,
    lines: &mut Vec<OutputLine>,
    outputs: &[RootOutput],
) -> Result<(), OutOfMemory>
    ensures { OnOk result (lines.new.items ≡ lines.old.items ++ shown outputs.now) }
{
    for output in outputs {
        add_shown(alloc, lines, output)?;
    }
    Ok(())
}

// The order of two lines: that of the bytes of their names.
fn by_name(one: &OutputLine, other: &OutputLine) -> Ordering
    ensures { result ≡ text_cmp one.now.name other.now.name }
{
    one.name.as_str().cmp(other.name.as_str())
}

// Puts the lines in the order of their names.
fn order(lines: &mut Vec<OutputLine>) -> Result<(), OutOfMemory>
    ensures same { IsPermutation lines.old.items lines.new.items }
    ensures sorted { OnOk result (AreInOrder lines.new.items) }
{
    lines.sort_by(|one, other| by_name(one, other))
}

// Adds the text of a line.
fn add_line(text: &mut Bytes, line: &OutputLine) -> Result<(), OutOfMemory>
    ensures { OnOk result (text.new ≡ text.old ++ line_text line.now) }
{
    text.extend(line.name.as_str().as_bytes())?;
    text.extend(b"=")?;
    text.extend(line.value.as_slice())?;
    text.extend(b"\n")?;
    Ok(())
}

// Adds the texts of the lines.
fn add_lines(text: &mut Bytes, lines: &[OutputLine]) -> Result<(), OutOfMemory>
    ensures { OnOk result (text.new ≡ text.old ++ text_of lines.now) }
{
    for line in lines {
        add_line(text, line)?;
    }
    Ok(())
}

// The lines of the outputs that are not secret, in the order of their names.
fn ordered(alloc: Global, outputs: &[RootOutput]) -> Result<Vec<OutputLine>, OutOfMemory>
    ensures same { IfOk result (λ ls. IsPermutation (shown outputs.now) ls.items) }
    ensures sorted { IfOk result (λ ls. AreInOrder ls.items) }
{
    let mut lines = Vec::new(alloc);
    match add_all_shown(alloc, &mut lines, outputs) {
        Ok(()) => in_order(lines),
        Err(_) => run_out(lines),
    }
}

// The lines in the order of their names.
fn in_order(lines: Vec<OutputLine>) -> Result<Vec<OutputLine>, OutOfMemory>
    ensures same { IfOk result (λ ls. IsPermutation lines.items ls.items) }
    ensures sorted { IfOk result (λ ls. AreInOrder ls.items) }
{
    let mut lines = lines;
    match order(&mut lines) {
        Ok(()) => Ok(lines),
        Err(_) => run_out(lines),
    }
}

// The text with the lines after it.
fn with_lines(text: Bytes, lines: Vec<OutputLine>) -> Result<Bytes, OutOfMemory>
    ensures { IfOk result (λ t. t ≡ text ++ text_of lines.items) }
{
    let mut text = text;
    match add_lines(&mut text, lines.as_slice()) {
        Ok(()) => Ok(letting_go(text, lines)),
        Err(_) => run_out((text, lines)),
    }
}

/// The text, and the lines of the outputs that are not secret after it, in the byte order of their names.
pub fn with_outputs(
    alloc: Global,
    text: Bytes,
    outputs: &[RootOutput],
) -> Result<Bytes, OutOfMemory>
    ensures { IfOk result (EndsWithOutputs text outputs.now) }
{
    match ordered(alloc, outputs) {
        Ok(lines) => with_lines(text, lines),
        Err(_) => run_out(text),
    }
}
