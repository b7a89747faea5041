// The plan of a sheet that has these parts, unless there are more tasks than can be numbered.
ghost use Rattle.std.specs.Prelude.{◌≡◌, List, Err, IfOk, IfErr};
ghost use Rattle.arm_ids.specs.Held.{HeldResource};
ghost use Rattle.plan_table.specs.Whole.{whole_of, rows_in};
ghost use Rattle.plan_tasks.specs.Start.{start_of, IsStartTable};
ghost use Rattle.plan_start.specs.Sheets.{IsSheet};
ghost use Rattle.plan_settling.specs.Refused.{AreSettled};
ghost use Rattle.plan_assembly.specs.Plans.{ArePlanned, deployment_of};
ghost use Rattle.plan_faults.specs.Faults.{IsFault};
ghost use Rattle.fault_exactness.specs.Exact.{HaveOwnKeys, NoneExtra, NameOneKey};
ghost use Rattle.arm_plan.specs.Accepted.{IsAccepted};

use plan_assembly::plan::Plan;
use plan_assembly::{Parts, assemble};
use plan_faults::PlanFault;
use plan_start::sheet::Start;
use template_parts::{Mode, Which};

// How many tasks a plan has at most, so that each has a number of 32 bits.
const MAX_TASKS: usize = 4_294_967_295;

/// Fails; the part is dropped.
pub fn failed<T: Drop, R: Drop>(fault: PlanFault, _part: T) -> Result<R, PlanFault>
    ensures { result ≡ Err fault }
{
    Err(fault)
}

/// The plan of a sheet that has these parts, or that there are more than 4,294,967,295 tasks.
pub fn plan_with<'a>(start: Start<'a>, mode: Mode, parts: Parts) -> Result<Plan<'a>, PlanFault>
    requires sheet { IsSheet start.register }
    requires table { IsStartTable start.register.table }
    requires settled { AreSettled (rows_in start.register.table) }
    requires keys { HaveOwnKeys (whole_of start.register.table) (start_of start.register.table) }
    requires none_extra { NoneExtra (whole_of start.register.table) (start_of start.register.table) }
    requires names { NameOneKey (whole_of start.register.table) (start_of start.register.table) }
    ensures accepted { IfOk result (λ p. (held : List HeldResource) → ArePlanned start.entry.register.table mode held
        parts.tasks.items parts.keys.items parts.needs.items → IsAccepted p held) }
    ensures whole { IfOk result (λ p. deployment_of p ≡ whole_of start.entry.register.table) }
    ensures mode { IfOk result (λ p. p.mode ≡ mode) }
    ensures fault { IfErr result (λ f. (held : List HeldResource) → ArePlanned start.entry.register.table mode held
        parts.tasks.items parts.keys.items parts.needs.items
        → IsFault (whole_of start.entry.register.table) mode held f) }
{
    let tasks = parts.tasks.len();
    if tasks > MAX_TASKS {
        failed(
            PlanFault::Limit(Which::Instances, tasks as u64),
            (start, parts),
        )
    } else {
        Ok(assemble(start, mode, parts))
    }
}
