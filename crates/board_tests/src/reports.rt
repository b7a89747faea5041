// What is printed of how deployments have ended.

use arm_edges::MemSink;
use arm_value::{Bytes, OutOfMemory, Text, Value};
use command_reports::{Report, print};
use deploy_core::Board;
use deployment_reports::with_outputs;
use given_plans::GivenPlan;
use sample_boards::ending::reported;
use sample_boards::following::{compare, follow_lines, fresh};
use sample_boards::parts::{both, letting_go, with};
use sample_boards::plans::plan;
use std::alloc::{AllocError, Global};
use std::test::Fail;
use task_standings::RootOutput;
use template_parts::ValueType;

fn kind_of(word: &str) -> ValueType {
    match word {
        "secret" => ValueType::SecureString,
        "secrets" => ValueType::SecureObject,
        "list" => ValueType::Array,
        _ => ValueType::String,
    }
}

// The output that a line says: `TYPE NAME JSON`.
fn output(alloc: Global, line: &str) -> Option<RootOutput> {
    let (word, rest) = line.split_once(' ').unwrap_or((line, ""));
    let (name, json) = rest.split_once(' ').unwrap_or((rest, ""));
    let value = Value::from_json(alloc, json.as_bytes()).ok();
    match both(Text::of(alloc, name).ok(), value) {
        Some((name, value)) => Some(RootOutput {
            name,
            kind: kind_of(word),
            value,
        }),
        None => None,
    }
}

fn outputs(alloc: Global, lines: &str) -> Option<Vec<RootOutput>> {
    let mut outputs = Some(Vec::new(alloc));
    for line in lines.lines() {
        outputs = with(outputs, output(alloc, line));
    }
    outputs
}

// Whether bytes are those of a text.
fn is_text(bytes: &[u8], wanted: &str) -> Result<(), Fail> {
    match str::from_utf8(bytes) {
        Ok(found) => compare(found, wanted),
        Err(_) => Err(Fail::from("no text")),
    }
}

// The lines of these outputs.
fn listed(alloc: Global, outputs: &[RootOutput]) -> Result<Bytes, OutOfMemory> {
    with_outputs(alloc, Bytes::from_vec(Vec::new(alloc)), outputs)
}

// Compares the lines of these outputs.
fn list(alloc: Global, lines: &str, wanted: &str) -> Result<(), Fail> {
    match outputs(alloc, lines) {
        Some(outputs) => {
            let text = letting_go(listed(alloc, outputs.as_slice()), outputs)?;
            is_text(text.as_slice(), wanted)
        }
        None => Err(Fail::from("no outputs")),
    }
}

#[test]
fn outputs_come_in_the_order_of_the_bytes_of_their_names(rt: HostRuntime) -> Result<(), Fail> {
    list(
        rt.alloc(),
        "text b \"x\"\nlist a! [1, null]\ntext B \"y\"\ntext a \"\u{e9}\"\ntext \u{e9} \"z\"",
        "B=\"y\"\na=\"\u{e9}\"\na!=[1,null]\nb=\"x\"\n\u{e9}=\"z\"\n",
    )
}

#[test]
fn secret_outputs_are_left_out(rt: HostRuntime) -> Result<(), Fail> {
    list(
        rt.alloc(),
        "secret key \"x\"\ntext name \"n\"\nsecrets keys {\"a\":1}",
        "name=\"n\"\n",
    )
}

fn check_report(report: &Report, status: u8, wanted: &str) -> Result<(), Fail> {
    if report.status != status {
        return Err(Fail::from("another status"));
    }
    is_text(report.text.as_slice(), wanted)
}

// Follows the lines, and compares the report of the end.
fn report_after(
    alloc: Global,
    board: &mut Board<GivenPlan>,
    lines: &str,
    status: u8,
    wanted: &str,
) -> Result<(), Fail> {
    follow_lines(alloc, board, lines)?;
    match reported(alloc, board, "first") {
        Some(report) => letting_go(check_report(&report, status, wanted), report),
        None => Err(Fail::from("not ended")),
    }
}

// The same of a board of these tasks, on which nothing has happened.
fn reports(alloc: Global, tasks: &str, lines: &str, status: u8, wanted: &str) -> Result<(), Fail> {
    let mut board = fresh(alloc, plan(alloc, 9, tasks)?)?;
    let compared = report_after(alloc, &mut board, lines, status, wanted);
    letting_go(compared, board)
}

#[test]
fn a_refusal_is_reported_with_its_code_and_its_resource(rt: HostRuntime) -> Result<(), Fail> {
    reports(
        rt.alloc(),
        "enter 0\nput 0\nput 1\nput 2\nleave 0",
        "next -> begin 1\nnext -> begin 2\nrefuse 2\nstore 1",
        3,
        "Failed first: Quota: /subscriptions/s/resourceGroups/g/providers/Demo.Lab/things/x\n",
    )
}

#[test]
fn a_deployment_without_outputs_is_reported_in_one_line(rt: HostRuntime) -> Result<(), Fail> {
    reports(
        rt.alloc(),
        "enter 0\nput 0\nleave 0",
        "next -> begin 1\nstore 1",
        0,
        "Succeeded first\n",
    )
}

// A sink that takes this many bytes.
fn sink(alloc: Global, room: usize) -> Result<MemSink, AllocError> {
    MemSink::new(alloc, [5].to_vec(alloc)?, Vec::new(alloc), room)
}

// Prints a report. Returns the status, and compares what was written.
fn print_to(sink: &mut MemSink, report: &Report, wanted: &str) -> Result<u8, Fail> {
    let status = print(sink, report);
    is_text(sink.as_slice(), wanted)?;
    Ok(status)
}

fn printed(alloc: Global, room: usize, wanted: &str) -> Result<u8, Fail> {
    let text = Bytes::from_vec("Succeeded first\n".as_bytes().to_vec(alloc)?);
    let report = Report { text, status: 0 };
    match sink(alloc, room) {
        Ok(mut sink) => {
            let printed = print_to(&mut sink, &report, wanted);
            letting_go(printed, (sink, report))
        }
        Err(_) => letting_go(Err(Fail::from("out of memory")), report),
    }
}

#[test]
fn a_report_that_is_cut_short_has_another_status(rt: HostRuntime) -> Result<(), Fail> {
    let whole = printed(rt.alloc(), 16, "Succeeded first\n")?;
    let cut = printed(rt.alloc(), 15, "Succeeded first")?;
    assert!(rt; (whole, cut) == (0, 5));
    Ok(())
}
