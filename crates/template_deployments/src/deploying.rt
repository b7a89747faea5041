// A template is deployed, out of the value that states it.

ghost use Rattle.template_deployments.specs.Deploying as spec;

use crate::asked::Asked;
use crate::refusing::refused;
use crate::running::run_plan;
use arm_template::{Bound, Template, bind, read_template};
use arm_value::Value;
use command_refusals::{bind_report, plan_report, template_report};
use plan_boards::plan;
use plan_outcomes::laws::accepted_plans_have_histories;
use provider_trait::Provider;
use run_reports::{Outcome, letting_go};
use stated_names::stated_names_differ;
use std::alloc::Global;
use std::sync::Wait;
use std::thread::Threads;
use worker_crew::Seat;

// Deploys a template whose parameters are bound so.
fn deploy_bound<R: Threads + Wait + Sync, P: Provider>(
    rt: &R,
    alloc: Global,
    template: &Template,
    bound: &Bound,
    asked: Asked,
    seats: &mut Vec<Seat<P>>,
) -> Outcome
    requires { spec.MayDeployBound template.now bound.now asked seats.old }
    ensures { spec.HasDeployedBound P.may P.tells P.faults P.calls seats.old seats.new result template.now asked.entry }
{
    stated_names_differ();
    accepted_plans_have_histories();
    match plan(alloc, template, bound, asked.place, asked.mode, asked.held) {
        Ok(plan) => {
            let outcome = run_plan(rt, alloc, &plan, asked.held, seats);
            letting_go(outcome, plan)
        }
        Err(fault) => refused(alloc, letting_go(plan_report(alloc, &fault), fault)),
    }
}

// Deploys a template.
fn deploy_read<R: Threads + Wait + Sync, P: Provider>(
    rt: &R,
    alloc: Global,
    template: &Template,
    asked: Asked,
    seats: &mut Vec<Seat<P>>,
) -> Outcome
    requires { spec.MayDeployRead template.now asked seats.old }
    ensures { spec.HasDeployedRead P.may P.tells P.faults P.calls seats.old seats.new result template.now asked.entry }
{
    match bind(alloc, template, asked.given) {
        Ok(bound) => {
            let outcome = deploy_bound(rt, alloc, template, &bound, asked, seats);
            letting_go(outcome, bound)
        }
        Err(fault) => refused(alloc, letting_go(bind_report(alloc, &fault), fault)),
    }
}

/// Deploys the template that the value states, as it is asked, by the providers of the seats, and reports how the
/// deployment has ended, with its history, or why it was refused. It may wait.
///
/// There are 1 to 4,294,967,295 seats, none with a job. The same seats come back in their order, none with a job. A
/// refusal of the template comes before one of the values for its parameters, and that before one of its plan.
pub fn deploy_value<R: Threads + Wait + Sync, P: Provider>(
    rt: &R,
    alloc: Global,
    value: &Value,
    asked: Asked,
    seats: &mut Vec<Seat<P>>,
) -> Outcome
    requires { spec.MayDeploy asked.place.now seats.old }
    ensures { spec.HasDeployed P.may P.tells P.faults P.calls seats.old seats.new result value.now asked.entry }
{
    match read_template(alloc, value) {
        Ok(template) => {
            let outcome = deploy_read(rt, alloc, &template, asked, seats);
            letting_go(outcome, template)
        }
        Err(fault) => refused(alloc, letting_go(template_report(alloc, &fault), fault)),
    }
}
