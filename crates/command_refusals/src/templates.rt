// Why templates, values for their parameters, and plans are refused.

ghost use Rattle.std.specs.Prelude.{◌≡◌, ◌++◌, codes, encode_utf8_all, IfOk};
ghost use Rattle.command_reports.specs.Faults.{refusal_report};
ghost use Rattle.command_refusals.specs.Templates.{beyond, bind_report, invalid, invalid_at, plan_report};
ghost use Rattle.command_refusals.specs.Templates.{template_report, unsuited};
ghost use Rattle.lock_rules.specs.Spaced.{after_spaces};

use crate::listing::paths_text;
use crate::words::out_of_memory;
use arm_value::{OutOfMemory, Path, Text};
use command_reports::{Report, refusal_report};
use plan_faults::PlanFault;
use std::alloc::Global;
use template_parts::{BindFault, TemplateFault, Which};

// The template is refused for a reason, with what comes after it.
fn invalid(alloc: Global, reason: &str, rest: &str) -> Result<Report, OutOfMemory>
    ensures { IfOk result (λ r. r ≡ invalid reason.now rest.now) }
{
    let detail = format!(in alloc; "{reason}{rest}")?;
    refusal_report(alloc, "InvalidTemplate", detail.as_str())
}

// A reason, and a path.
fn invalid_at(alloc: Global, reason: &str, path: &Path) -> Result<Report, OutOfMemory>
    ensures { IfOk result (λ r. r ≡ invalid_at reason.now path.now) }
{
    let rest = format!(in alloc; " {}", path.as_str())?;
    invalid(alloc, reason, rest.as_str())
}

// A quantity, and the number that is beyond its limit.
fn beyond(alloc: Global, which: Which, number: u64) -> Result<Report, OutOfMemory>
    ensures { IfOk result (λ r. r ≡ beyond which number) }
{
    let rest = format!(in alloc; " {} {number}", which.word())?;
    invalid(alloc, "Limit", rest.as_str())
}

/// The report of a template that is refused.
pub fn template_report(alloc: Global, fault: &TemplateFault) -> Result<Report, OutOfMemory>
    ensures { IfOk result (λ r. r ≡ template_report fault.now) }
{
    match fault {
        TemplateFault::Missing(path) => invalid_at(alloc, "Missing", path),
        TemplateFault::WrongForm(path) => invalid_at(alloc, "WrongForm", path),
        TemplateFault::Limit(which, number) => beyond(alloc, *which, *number),
        TemplateFault::BadExpression(path) => invalid_at(alloc, "BadExpression", path),
        TemplateFault::ReferenceInVariable(path) => {
            invalid_at(alloc, "ReferenceInVariable", path)
        }
        TemplateFault::OutOfMemory => out_of_memory(alloc),
    }
}

// A refusal with a word and a name, after another text.
fn worded(
    alloc: Global,
    code: &str,
    before: &str,
    word: &str,
    name: &Text,
) -> Result<Report, OutOfMemory>
    ensures { IfOk result (λ r. r
        ≡ refusal_report code.now (before.now ++ (word.now ++ encode_utf8_all name.now))) }
{
    let detail = format!(in alloc; "{before}{word}{}", name.as_str())?;
    refusal_report(alloc, code, detail.as_str())
}

// A refusal with a reason and the name of a parameter, after another text.
fn unsuited(
    alloc: Global,
    code: &str,
    before: &str,
    fault: &BindFault,
) -> Result<Report, OutOfMemory>
    ensures { IfOk result (λ r. r ≡ unsuited code.now before.now fault.now) }
{
    match fault {
        BindFault::ExtraParameter(name) => worded(alloc, code, before, "ExtraParameter ", name),
        BindFault::MissingParameter(name) => worded(alloc, code, before, "MissingParameter ", name),
        BindFault::WrongType(name) => worded(alloc, code, before, "WrongType ", name),
        BindFault::NotAllowed(name) => worded(alloc, code, before, "NotAllowed ", name),
        BindFault::OutOfBounds(name) => worded(alloc, code, before, "OutOfBounds ", name),
        BindFault::OutOfMemory => out_of_memory(alloc),
    }
}

/// The report of values that do not suit the parameters of a template.
pub fn bind_report(alloc: Global, fault: &BindFault) -> Result<Report, OutOfMemory>
    ensures { IfOk result (λ r. r ≡ bind_report fault.now) }
{
    unsuited(alloc, "InvalidParameter", "", fault)
}

// Two positions have one key.
fn same_key(alloc: Global, first: &Text, second: &Text) -> Result<Report, OutOfMemory>
    ensures { IfOk result (λ r. r ≡ invalid (codes "SameKey")
        (codes " " ++ (encode_utf8_all first.now ++ (codes " " ++ encode_utf8_all second.now)))) }
{
    let rest = format!(in alloc; " {} {}", first.as_str(), second.as_str())?;
    invalid(alloc, "SameKey", rest.as_str())
}

// What is at the paths needs one another.
fn circle(alloc: Global, paths: &[Path]) -> Result<Report, OutOfMemory>
    ensures { IfOk result (λ r. r ≡ invalid (codes "Circle") (encode_utf8_all (after_spaces paths.now))) }
{
    let rest = paths_text(alloc, paths)?;
    invalid(alloc, "Circle", rest.as_str())
}

// The value at a path breaks its rule.
fn unsuited_at(alloc: Global, path: &Path, fault: &BindFault) -> Result<Report, OutOfMemory>
    ensures { IfOk result (λ r. r ≡ unsuited (codes "InvalidTemplate")
        (codes "Bind " ++ (encode_utf8_all path.now ++ codes " ")) fault.now) }
{
    let before = format!(in alloc; "Bind {} ", path.as_str())?;
    unsuited(alloc, "InvalidTemplate", before.as_str(), fault)
}

/// The report of a deployment that has no plan.
pub fn plan_report(alloc: Global, fault: &PlanFault) -> Result<Report, OutOfMemory>
    ensures { IfOk result (λ r. r ≡ plan_report fault.now) }
{
    match fault {
        PlanFault::NotStartKnown(path, _) => invalid_at(alloc, "NotStartKnown", path),
        PlanFault::NoValue(path) => invalid_at(alloc, "NoValue", path),
        PlanFault::SameKey(first, second) => same_key(alloc, first, second),
        PlanFault::Limit(which, number) => beyond(alloc, *which, *number),
        PlanFault::UnknownDependency(path) => invalid_at(alloc, "UnknownDependency", path),
        PlanFault::AmbiguousDependency(path) => invalid_at(alloc, "AmbiguousDependency", path),
        PlanFault::Circle(paths) => circle(alloc, paths.as_slice()),
        PlanFault::Bind(path, fault) => unsuited_at(alloc, path, fault),
        PlanFault::OutOfMemory => out_of_memory(alloc),
    }
}
