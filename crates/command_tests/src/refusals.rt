// The lines of refusals and faults.

use arm_value::{OutOfMemory, Path, Text, Texts};
use bicep_lexer::LexFault;
use bicep_program::LoadFault;
use bicep_types::CheckFault;
use command_refusals::{
    bind_report, check_report, load_report, name_report, parameter_report, plan_report,
};
use command_reports::{Fault, Report, fault_report};
use parameter_files::ParameterFault;
use plan_faults::PlanFault;
use std::alloc::Global;
use std::rt::HostRuntime;
use std::test::Fail;
use template_parts::{BindFault, run_out};

// A line: a word for what is reported, what it is of, ` -> `, and the line that is printed.
const LINES: &str = "\
text main.bicep -> error OpenText: main.bicep:8
module main.bicep -> error ModuleMissing: main.bicep
symbols a -> error SymbolCycle: a b
value v -> error InvalidTemplate: NoValue /variables/v
key 0 -> error InvalidTemplate: SameKey /resources/0 /resources/1
bound size -> error InvalidParameter: OutOfBounds size
file p.json -> error FileMissing: p.json
tree p.json -> fault tree
name x/y -> error InvalidParameter: BadName x/y
full 17 -> fault full 17 91
seat 2 -> fault provider 2
";

// The answer; the part is dropped.
fn letting_go<T: Drop, R>(answer: R, _part: T) -> R {
    answer
}

fn open_text(alloc: Global, file: &str) -> Result<Report, OutOfMemory> {
    let fault = LoadFault::Lex(Text::of(alloc, file)?, LexFault::OpenText(8));
    letting_go(load_report(alloc, "other.bicep", &fault), fault)
}

fn module_missing(alloc: Global, file: &str) -> Result<Report, OutOfMemory> {
    let name = Text::of(alloc, file)?;
    let fault = match Text::of(alloc, "no.bicep") {
        Ok(path) => LoadFault::ModuleMissing(name, path),
        Err(_) => return run_out(name),
    };
    letting_go(load_report(alloc, "other.bicep", &fault), fault)
}

fn symbols(alloc: Global, first: &str) -> Result<Report, OutOfMemory> {
    let mut names = Texts::new(alloc);
    names.push(Text::of(alloc, first)?)?;
    names.push(Text::of(alloc, "b")?)?;
    let fault = CheckFault::SymbolCycle(0, names);
    letting_go(check_report(alloc, &[], &fault), fault)
}

fn no_value(alloc: Global, name: &str) -> Result<Report, OutOfMemory> {
    let path = Path::root(alloc).member(alloc, "variables")?;
    let fault = PlanFault::NoValue(path.member(alloc, name)?);
    letting_go(plan_report(alloc, &fault), fault)
}

fn same_key(alloc: Global) -> Result<Report, OutOfMemory> {
    let first = Text::of(alloc, "/resources/0")?;
    let fault = match Text::of(alloc, "/resources/1") {
        Ok(second) => PlanFault::SameKey(first, second),
        Err(_) => return run_out(first),
    };
    letting_go(plan_report(alloc, &fault), fault)
}

fn out_of_bounds(alloc: Global, name: &str) -> Result<Report, OutOfMemory> {
    let fault = BindFault::OutOfBounds(Text::of(alloc, name)?);
    letting_go(bind_report(alloc, &fault), fault)
}

fn full(alloc: Global, length: u64) -> Result<Report, OutOfMemory> {
    fault_report(alloc, Fault::Full { length, needed: 91 })
}

fn report_of(alloc: Global, word: &str, of: &str) -> Result<Report, Fail> {
    match word {
        "text" => Ok(open_text(alloc, of)?),
        "module" => Ok(module_missing(alloc, of)?),
        "symbols" => Ok(symbols(alloc, of)?),
        "value" => Ok(no_value(alloc, of)?),
        "key" => Ok(same_key(alloc)?),
        "bound" => Ok(out_of_bounds(alloc, of)?),
        "file" => Ok(parameter_report(alloc, of, ParameterFault::Missing)?),
        "tree" => Ok(parameter_report(alloc, of, ParameterFault::Fault)?),
        "name" => Ok(name_report(alloc, of)?),
        "full" => Ok(full(alloc, of.parse()?)?),
        "seat" => Ok(fault_report(alloc, Fault::Provider(of.parse()?))?),
        _ => Err(Fail::from("no such word")),
    }
}

fn compare(report: &Report, wanted: &str) -> Result<(), Fail> {
    match str::from_utf8(report.text.as_slice()) {
        Ok(text) => {
            if text.strip_suffix("\n") == Some(wanted) {
                return Ok(());
            }
            Err(Fail::new(format_args!("{wanted} but {text}")))
        }
        Err(_) => Err(Fail::from("no text")),
    }
}

fn check_line(alloc: Global, line: &str) -> Result<(), Fail> {
    let (what, wanted) = line.split_once(" -> ").unwrap_or((line, ""));
    let (word, of) = what.split_once(' ').unwrap_or((what, ""));
    let report = report_of(alloc, word, of)?;
    letting_go(compare(&report, wanted), report)
}

#[test]
fn refusals_and_faults_have_their_lines(rt: HostRuntime) -> Result<(), Fail> {
    for line in LINES.lines() {
        check_line(rt.alloc(), line)?;
    }
    Ok(())
}
