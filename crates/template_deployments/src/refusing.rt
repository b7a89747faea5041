// A deployment that was refused.

ghost use Rattle.template_deployments.specs.Deploying as spec;

use arm_value::OutOfMemory;
use command_reports::Report;
use run_reports::Outcome;
use std::alloc::Global;

/// What came of a deployment that was refused with this report: nothing has happened in it.
pub fn refused(alloc: Global, report: Result<Report, OutOfMemory>) -> Outcome
    ensures { spec.IsRefusedWith report result }
{
    Outcome {
        report,
        history: Vec::new(alloc),
    }
}
