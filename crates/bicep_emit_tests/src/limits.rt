// Programs whose templates are beyond a limit.

use crate::counts::lines;
use crate::rows::{check_beginning, check_beginning_in};
use std::alloc::{AllocError, Global};
use std::test::Fail;
use template_parts::Form;

// A text with a part of it so many times.
fn repeated(
    alloc: Global,
    (before, part, after): (&str, &str, &str),
    count: usize,
) -> Result<String, AllocError> {
    let mut text = String::from_str(alloc, before)?;
    for _part in 0..count {
        text.push_str(part)?;
    }
    text.push_str(after)?;
    Ok(text)
}

// Compares how what a program becomes begins that has a part so many times.
fn check_repeated(
    alloc: Global,
    parts: (&str, &str, &str),
    count: usize,
    wanted: &str,
) -> Result<(), Fail> {
    let program = repeated(alloc, parts, count)?;
    check_beginning(alloc, program.as_str(), wanted)
}

const NESTED: (&str, &str, &str) = ("param p bool\nvar v = ", "!", "p");

#[test]
fn nesting_is_measured(rt: HostRuntime) -> Result<(), Fail> {
    check_repeated(rt.alloc(), NESTED, 63, "{")?;
    check_repeated(rt.alloc(), NESTED, 64, "too deep")
}

// `[concat('x..x')]` has 12 characters besides those of its text.
const LONG: (&str, &str, &str) = ("var v = concat('", "x", "')");

#[test]
fn texts_of_expressions_are_measured(rt: HostRuntime) -> Result<(), Fail> {
    check_repeated(rt.alloc(), LONG, 24_564, "{")?;
    check_repeated(rt.alloc(), LONG, 24_565, "Expression 24577")
}

// The variable after that of the number, which has it twice.
fn push_doubled(text: &mut String, number: u32) -> Result<(), AllocError> {
    let next = number.saturating_add(1);
    write!(text, "var a{next} = '${{a{number}}}${{a{number}}}'\n")
}

// Variables each of which has the one before it twice, and no entry, since the first reads state.
fn doubled(alloc: Global, count: u32) -> Result<String, AllocError> {
    let mut text = String::from_str(alloc, STATE)?;
    for number in 0..count {
        push_doubled(&mut text, number)?;
    }
    write!(text, "output o string = a{count}")?;
    Ok(text)
}

const STATE: &str = "resource s 'Demo.Lab/things@1' existing = {\n  name: 's'\n}\nvar a0 = s.x\n";

// The expression of `a0` has 60 characters, and each next one 20 more than twice as many. The brackets are 2.
#[test]
fn what_is_too_long_is_not_built(rt: HostRuntime) -> Result<(), Fail> {
    let program = doubled(rt.alloc(), 40)?;
    check_beginning(rt.alloc(), program.as_str(), "Expression 87960930222062")
}

// Files of which each but the last has a module of the next.
fn chain(alloc: Global, count: u32) -> Result<String, AllocError> {
    let mut text = String::new(alloc);
    for number in 0..count {
        let next = number.saturating_add(1);
        writeln!(
            text,
            "module m 'f{next}.bicep' = {{\n}}\n\n--- f{next}.bicep"
        )?;
    }
    Ok(text)
}

// Compares how what becomes in the form of so many modules in one another begins.
fn check_chain(alloc: Global, form: Form, count: u32, wanted: &str) -> Result<(), Fail> {
    let program = chain(alloc, count)?;
    check_beginning_in(alloc, form, program.as_str(), wanted)
}

// Each module adds four arrays and objects around its template, and a template without resources nests two deep.
#[test]
fn modules_in_one_another_are_counted(rt: HostRuntime) -> Result<(), Fail> {
    check_chain(rt.alloc(), Form::One, 29, "{")?;
    check_chain(rt.alloc(), Form::One, 30, "Nesting 12")
}

// Adds so many arrays in one another.
fn push_arrays(text: &mut String, count: usize) -> Result<(), AllocError> {
    for _array in 0..count {
        text.push('[')?;
    }
    for _array in 0..count {
        text.push(']')?;
    }
    Ok(())
}

// Fourteen modules in one another, the last of which has so many arrays in one another between two texts.
fn arrays(
    alloc: Global,
    (before, after): (&str, &str),
    count: usize,
) -> Result<String, AllocError> {
    let mut text = chain(alloc, 14)?;
    text.push_str(before)?;
    push_arrays(&mut text, count)?;
    text.push_str(after)?;
    Ok(text)
}

// Compares how what these modules become in both forms begins.
fn check_arrays(
    alloc: Global,
    parts: (&str, &str),
    count: usize,
    wanted: &str,
) -> Result<(), Fail> {
    let program = arrays(alloc, parts, count)?;
    check_beginning_in(alloc, Form::One, program.as_str(), wanted)?;
    check_beginning_in(alloc, Form::Two, program.as_str(), wanted)
}

// Around the last template are 56 arrays and objects. It, its outputs, the output and its member `copy` are four more.
const LOOPED_OUTPUT: (&str, &str) = ("output o array = [for i in range(0, 1): ", "]");

#[test]
fn loops_of_outputs_nest(rt: HostRuntime) -> Result<(), Fail> {
    check_arrays(rt.alloc(), LOOPED_OUTPUT, 60, "{")?;
    check_arrays(rt.alloc(), LOOPED_OUTPUT, 61, "Nesting 121")
}

// With the member `metadata` of the output in the place of `copy` they are as many.
const OUTPUT_METADATA: (&str, &str) = ("@metadata({ m: ", " })\noutput o int = 1");

#[test]
fn metadata_of_outputs_nests(rt: HostRuntime) -> Result<(), Fail> {
    check_arrays(rt.alloc(), OUTPUT_METADATA, 60, "{")?;
    check_arrays(rt.alloc(), OUTPUT_METADATA, 61, "Nesting 121")
}

// The template has 156 bytes besides the text, in which each quote is two.
const QUOTES: (&str, &str, &str) = ("var v = '", "\"", "'");

#[test]
fn bytes_are_counted(rt: HostRuntime) -> Result<(), Fail> {
    check_repeated(rt.alloc(), QUOTES, 2_097_074, "{")?;
    check_repeated(rt.alloc(), QUOTES, 2_097_075, "Bytes 4194306")
}

// Adds two modules of the file after that of the number.
fn push_twins(text: &mut String, number: u32) -> Result<(), AllocError> {
    let next = number.saturating_add(1);
    writeln!(text, "module a 'f{next}.bicep' = {{\n}}")?;
    writeln!(text, "module b 'f{next}.bicep' = {{\n}}")?;
    writeln!(text, "\n--- f{next}.bicep")
}

// So many files, each of which has two modules of the next, and a last one with a long text.
fn twins(alloc: Global, count: u32) -> Result<String, AllocError> {
    let mut text = String::new(alloc);
    for number in 0..count {
        push_twins(&mut text, number)?;
    }
    text.push_str(repeated(alloc, ("var v = '", "x", "'"), 1_050_000)?.as_str())?;
    Ok(text)
}

// The template of the program would have that of the last file 2^28 times, which has 1,050,156 bytes. That of the file
// before it has 2,100,798, and two of these are too many.
#[test]
fn templates_of_modules_that_are_too_long_are_not_built(rt: HostRuntime) -> Result<(), Fail> {
    let program = twins(rt.alloc(), 28)?;
    check_beginning(rt.alloc(), program.as_str(), "Bytes 4201596")
}

// A main file with an expression that nests 65 deep, and its module.
const DEEP: (&str, &str, &str) = (
    "param p bool\nvar v = ",
    "!",
    "p\nmodule m 'm.bicep' = {\n}\n\n--- m.bicep\n",
);

// Compares how what becomes of such a program begins, with this as the file of the module.
fn check_module(alloc: Global, module: &str, wanted: &str) -> Result<(), Fail> {
    let mut program = repeated(alloc, DEEP, 64)?;
    program.push_str(module)?;
    check_beginning(alloc, program.as_str(), wanted)
}

#[test]
fn long_texts_come_before_nesting(rt: HostRuntime) -> Result<(), Fail> {
    let module = repeated(rt.alloc(), LONG, 24_565)?;
    check_module(rt.alloc(), module.as_str(), "Expression 24577")
}

#[test]
fn counts_come_before_nesting(rt: HostRuntime) -> Result<(), Fail> {
    let module = lines(rt.alloc(), "output o# int = 1", 65)?;
    check_module(rt.alloc(), module.as_str(), "Outputs 65")
}

#[test]
fn modules_come_before_nesting(rt: HostRuntime) -> Result<(), Fail> {
    let module = chain(rt.alloc(), 30)?;
    check_module(rt.alloc(), module.as_str(), "Nesting 12")
}

// Compares how what a program becomes in the form begins that has a part so many times.
fn check_repeated_in(
    alloc: Global,
    form: Form,
    parts: (&str, &str, &str),
    count: usize,
    wanted: &str,
) -> Result<(), Fail> {
    let program = repeated(alloc, parts, count)?;
    check_beginning_in(alloc, form, program.as_str(), wanted)
}

// An existing resource has no place in a template of the first form. `p != p != p` nests two deep as it is written, and
// five deep as it is emitted.
const DEEP_NAME: (&str, &str, &str) = (
    "param p bool\nresource e 'Demo.Lab/things@1' existing = { name: ",
    "!",
    "(p != p != p) }",
);

#[test]
fn names_of_existing_resources_nest(rt: HostRuntime) -> Result<(), Fail> {
    check_repeated_in(rt.alloc(), Form::Two, DEEP_NAME, 59, "{")?;
    check_repeated_in(rt.alloc(), Form::Two, DEEP_NAME, 60, "too deep")
}

const LONG_NAME: (&str, &str, &str) = (
    "resource e 'Demo.Lab/things@1' existing = { name: concat('",
    "x",
    "') }",
);

#[test]
fn names_of_existing_resources_are_long(rt: HostRuntime) -> Result<(), Fail> {
    check_repeated_in(rt.alloc(), Form::Two, LONG_NAME, 24_564, "{")?;
    check_repeated_in(rt.alloc(), Form::Two, LONG_NAME, 24_565, "Expression 24577")
}

#[test]
fn names_of_existing_resources_are_not_in_the_first_form(rt: HostRuntime) -> Result<(), Fail> {
    check_repeated_in(rt.alloc(), Form::One, DEEP_NAME, 60, "{")?;
    check_repeated_in(rt.alloc(), Form::One, LONG_NAME, 24_565, "{")
}

// The template has 24 bytes more in the second form, for the version of its language.
#[test]
fn bytes_are_counted_in_the_second_form(rt: HostRuntime) -> Result<(), Fail> {
    check_repeated_in(rt.alloc(), Form::Two, QUOTES, 2_097_062, "{")?;
    check_repeated_in(rt.alloc(), Form::Two, QUOTES, 2_097_063, "Bytes 4194306")
}

#[test]
fn modules_in_one_another_are_counted_in_the_second_form(rt: HostRuntime) -> Result<(), Fail> {
    check_chain(rt.alloc(), Form::Two, 29, "{")?;
    check_chain(rt.alloc(), Form::Two, 30, "Nesting 12")
}
