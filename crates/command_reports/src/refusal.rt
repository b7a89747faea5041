// The line of a refusal.

ghost use Rattle.std.specs.Prelude.{◌≡◌, IfOk};
ghost use Rattle.command_reports.specs.Faults.{refusal_report};

use crate::report::Report;
use arm_value::{Bytes, OutOfMemory};
use std::alloc::Global;

/// The report of a refusal: `error CODE: DETAIL`, with status 1.
pub fn refusal_report(alloc: Global, code: &str, detail: &str) -> Result<Report, OutOfMemory>
    ensures { IfOk result (λ r. r ≡ refusal_report code.now detail.now) }
{
    let text = format!(in alloc; "error {code}: {detail}\n")?;
    Ok(Report {
        text: Bytes::from_vec(text.into_bytes()),
        status: 1,
    })
}
