// The plan of a deployment, or why there is none.
ghost use Rattle.std.specs.Prelude.{◌≡◌, List, map, IfOk, IfErr, MatchOption};
ghost use Rattle.arm_ids.specs.Held.{HeldResource};
ghost use Rattle.template_parameters.specs.Binding.{bound_view};
ghost use Rattle.template_parts.specs.declared.mode.Mode.{Mode};
ghost use Rattle.template_tree.specs.View.{template_tree};
ghost use Rattle.plan_cells.specs.Children.{NamesDiffer};
ghost use Rattle.plan_cells.specs.Meaning.{Deployment};
ghost use Rattle.plan_filling.specs.Limits.{IsHalted};
ghost use Rattle.plan_filling.specs.Sound.{Sound};
ghost use Rattle.plan_filling.specs.Steps.{Filled, IsCircle};
ghost use Rattle.plan_table.specs.Whole.{whole_of, rows_in, IsLaid};
ghost use Rattle.plan_tasks.specs.Start.{start_of, IsStartTable};
ghost use Rattle.plan_start.specs.Sheets.{IsSheet};
ghost use Rattle.plan_elements.specs.Elements.{IsUnread};
ghost use Rattle.plan_assembly.specs.Plans.{deployment_of};
ghost use Rattle.plan_settling.specs.Refused.{AreSettled};
ghost use Rattle.plan_faults.specs.Faults.{IsFault};
ghost use Rattle.fault_exactness.specs.Exact.{HaveOwnKeys, NoneExtra, NameOneKey};
ghost use Rattle.arm_plan.specs.Accepted.{IsAccepted};

use crate::checking::check_sheet;
use crate::numbering::{failed, plan_with};
use arm_ids::{Held, Place};
use fault_finding::{circle_fault, element_fault, line_fault};
use plan_assembly::make_parts;
use plan_assembly::plan::Plan;
use plan_elements::Unread;
use plan_faults::PlanFault;
use plan_filling::sheet::Halt;
use plan_filling::visit::Circle;
use plan_settling::find_refused;
use plan_start::sheet::Start;
use plan_start::start::{Outcome, known_at_start};
use plan_table::table::Table;
use std::alloc::Global;
use template_parts::{Bound, Mode};
use template_tree::Template;

// Why there is no plan, where the sheet was not filled.
fn halt_fault(halt: Halt) -> PlanFault
    ensures { (d : Deployment) (mode : Mode) (held : List HeldResource) → IsHalted d halt → IsFault d mode held result }
{
    match halt {
        Halt::Limit(which, number) => PlanFault::Limit(which, number),
        Halt::OutOfMemory => PlanFault::OutOfMemory,
    }
}

// Why there is no plan, where elements of `dependsOn` have no values.
fn unread_fault(alloc: Global, table: &Table, unread: Unread) -> PlanFault
    requires laid { IsLaid table.now }
    requires filled { Filled (whole_of table.now) (rows_in table.now) }
    requires unread { IsUnread table.now unread }
    ensures { (mode : Mode) (held : List HeldResource) → IsFault (whole_of table.now) mode held result }
{
    match unread {
        Unread::Element(opener, element, lack) => element_fault(
            alloc, table, opener, element, lack,
        ),
        Unread::OutOfMemory => PlanFault::OutOfMemory,
    }
}

// The plan of a sheet that is not refused so far, or why there is none.
fn plan_checked<'a>(
    alloc: Global,
    start: Start<'a>,
    mode: Mode,
    held: &Held,
) -> Result<Plan<'a>, PlanFault>
    requires sheet { IsSheet start.register }
    requires table { IsStartTable start.register.table }
    requires settled { AreSettled (rows_in start.register.table) }
    requires keys { HaveOwnKeys (whole_of start.register.table) (start_of start.register.table) }
    requires none_extra { NoneExtra (whole_of start.register.table) (start_of start.register.table) }
    requires names { NameOneKey (whole_of start.register.table) (start_of start.register.table) }
    ensures accepted { IfOk result (λ p. IsAccepted p held.now) }
    ensures whole { IfOk result (λ p. deployment_of p ≡ whole_of start.entry.register.table) }
    ensures mode { IfOk result (λ p. p.mode ≡ mode) }
    ensures fault { IfErr result (IsFault (whole_of start.entry.register.table) mode held.now) }
{
    match make_parts(alloc, &start.register, mode, held) {
        Ok(parts) => plan_with(start, mode, parts),
        Err(unread) => {
            let fault = unread_fault(alloc, &start.register.table, unread);
            failed(fault, start)
        }
    }
}

// The plan of a sheet that was filled and has all values that a plan needs, or why there is none.
fn plan_settled<'a>(
    alloc: Global,
    start: Start<'a>,
    mode: Mode,
    held: &Held,
) -> Result<Plan<'a>, PlanFault>
    requires sheet { IsSheet start.register }
    requires table { IsStartTable start.register.table }
    requires settled { AreSettled (rows_in start.register.table) }
    ensures accepted { IfOk result (λ p. IsAccepted p held.now) }
    ensures whole { IfOk result (λ p. deployment_of p ≡ whole_of start.entry.register.table) }
    ensures mode { IfOk result (λ p. p.mode ≡ mode) }
    ensures fault { IfErr result (IsFault (whole_of start.entry.register.table) mode held.now) }
{
    match check_sheet(alloc, &start.register) {
        Ok(()) => plan_checked(alloc, start, mode, held),
        Err(fault) => failed(fault, start),
    }
}

// The plan of a sheet that was filled, or why there is none.
fn plan_filled<'a>(
    alloc: Global,
    start: Start<'a>,
    mode: Mode,
    held: &Held,
) -> Result<Plan<'a>, PlanFault>
    requires sheet { IsSheet start.register }
    requires filled { Filled (whole_of start.register.table) (rows_in start.register.table) }
    ensures accepted { IfOk result (λ p. IsAccepted p held.now) }
    ensures whole { IfOk result (λ p. deployment_of p ≡ whole_of start.entry.register.table) }
    ensures mode { IfOk result (λ p. p.mode ≡ mode) }
    ensures fault { IfErr result (IsFault (whole_of start.entry.register.table) mode held.now) }
{
    match find_refused(&start.register.table) {
        Some(at) => {
            let fault = line_fault(alloc, &start.register, at);
            failed(fault, start)
        }
        None => plan_settled(alloc, start, mode, held),
    }
}

// The plan of a sheet that was filled as far as it goes, or why there is none.
fn plan_known<'a>(
    alloc: Global,
    start: Start<'a>,
    circle: Option<Circle>,
    mode: Mode,
    held: &Held,
) -> Result<Plan<'a>, PlanFault>
    requires sheet { IsSheet start.register }
    requires filled { MatchOption circle
        (Filled (whole_of start.register.table) (rows_in start.register.table))
        (λ c. IsCircle (whole_of start.register.table) (rows_in start.register.table) c.places.items c.last c.back) }
    requires sound { Sound (whole_of start.register.table) (rows_in start.register.table) }
    ensures accepted { IfOk result (λ p. IsAccepted p held.now) }
    ensures whole { IfOk result (λ p. deployment_of p ≡ whole_of start.entry.register.table) }
    ensures mode { IfOk result (λ p. p.mode ≡ mode) }
    ensures fault { IfErr result (IsFault (whole_of start.entry.register.table) mode held.now) }
{
    match circle {
        Some(circle) => {
            let fault = circle_fault(alloc, &start.register.table, circle);
            failed(fault, start)
        }
        None => plan_filled(alloc, start, mode, held),
    }
}

/// The plan of a deployment of a template in a place, where its parameters are bound so and this is held, or why there
/// is none. The names of one sort differ in each template, as in one that was read.
pub fn plan<'a>(
    alloc: Global,
    template: &'a Template,
    bound: &'a Bound,
    place: &'a Place,
    mode: Mode,
    held: &Held,
) -> Result<Plan<'a>, PlanFault>
    requires names_differ { NamesDiffer (template_tree template.now) }
    ensures accepted { IfOk result (λ p. IsAccepted p held.now) }
    ensures whole { IfOk result (λ p. deployment_of p ≡ record {
      template = template_tree template.now;
      bound = map bound_view bound.now;
      place = place.now;
    }) }
    ensures mode { IfOk result (λ p. p.mode ≡ mode) }
    ensures fault { IfErr result (IsFault (record {
      template = template_tree template.now;
      bound = map bound_view bound.now;
      place = place.now;
    }) mode held.now) }
{
    match known_at_start(alloc, template, bound, place) {
        Ok(Outcome { start, circle }) => plan_known(alloc, start, circle, mode, held),
        Err(halt) => Err(halt_fault(halt)),
    }
}
