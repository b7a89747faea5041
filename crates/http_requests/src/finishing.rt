// What a call asks with its body.

ghost use Rattle.std.specs.Prelude.{◌≡◌, option_map, IfOk};
ghost use Rattle.arm_value.specs.View.{json};
ghost use Rattle.serde_json.specs.Written.{compact_text};
ghost use Rattle.arm_value.specs.Reading.{data_of};
ghost use Rattle.http_requests.specs.Bodies.{Asks, Finishes, group_asked, group_with, deployment_asked, deployment_in};
ghost use Rattle.http_requests.specs.Bodies.{deployment_with, lock_asked, lock_in};
ghost use Rattle.http_requests.specs.Calls.{called, puts_group, deploys, puts_lock};

use crate::ask::Ask;
use crate::body::{copy_value, level_in, member, mode_in, notes_in, read_body, text_at};
use crate::call::Call;
use crate::fault::{BodyFault, letting_go};
use arm_value::Value;
use http_routes::{DeploymentAt, GroupAt, LockAt};
use std::alloc::Global;
use template_parts::Mode;

/// What the call asks with this body.
pub fn finish(alloc: Global, call: Call, body: &[u8]) -> Result<Ask, BodyFault>
    ensures { Finishes (called call) body.now result }
{
    match call {
        Call::Ready(ask) => Ok(ask),
        Call::PutGroup(at) => put_group(alloc, at, body),
        Call::Deploy(at) => deploy(alloc, at, body),
        Call::PutLock(at) => put_lock(alloc, at, body),
    }
}

fn put_group(alloc: Global, at: GroupAt, body: &[u8]) -> Result<Ask, BodyFault>
    ensures { Finishes (puts_group at) body.now result }
{
    match read_body(alloc, body) {
        Ok(value) => letting_go(group_asked(alloc, at, &value), value),
        Err(fault) => letting_go(Err(fault), at),
    }
}

fn deploy(alloc: Global, at: DeploymentAt, body: &[u8]) -> Result<Ask, BodyFault>
    ensures { Finishes (deploys at) body.now result }
{
    match read_body(alloc, body) {
        Ok(value) => letting_go(deployment_asked(alloc, at, &value), value),
        Err(fault) => letting_go(Err(fault), at),
    }
}

fn put_lock(alloc: Global, at: LockAt, body: &[u8]) -> Result<Ask, BodyFault>
    ensures { Finishes (puts_lock at) body.now result }
{
    match read_body(alloc, body) {
        Ok(value) => letting_go(lock_asked(alloc, at, &value), value),
        Err(fault) => letting_go(Err(fault), at),
    }
}

// The body has not its form; the part is dropped.
fn refused<T: Drop>(part: T) -> Result<Ask, BodyFault>
    ensures { result ≡ Err BodyFault.BadBody }
{
    letting_go(Err(BodyFault::BadBody), part)
}

// Out of memory; the part is dropped.
fn run_out<T: Drop>(part: T) -> Result<Ask, BodyFault>
    ensures { result ≡ Err BodyFault.OutOfMemory }
{
    letting_go(Err(BodyFault::OutOfMemory), part)
}

// That a group is there: `{location}`.
fn group_asked(alloc: Global, at: GroupAt, body: &Value) -> Result<Ask, BodyFault>
    ensures { Asks (group_asked at (json body.now)) result }
{
    match text_at(body, "location") {
        Some(location) => match location.copy(alloc) {
            Ok(location) => Ok(Ask::PutGroup(at, location)),
            Err(_) => run_out(at),
        },
        None => refused(at),
    }
}

// That a template is deployed: `{properties: {mode, template, parameters}}`.
fn deployment_asked(alloc: Global, at: DeploymentAt, body: &Value) -> Result<Ask, BodyFault>
    ensures { Asks (deployment_asked at (json body.now)) result }
{
    match member(body, "properties") {
        Some(properties) => deployment_in(alloc, at, properties),
        None => refused(at),
    }
}

// The same by its properties.
fn deployment_in(alloc: Global, at: DeploymentAt, properties: &Value) -> Result<Ask, BodyFault>
    ensures { Asks (deployment_in at (json properties.now)) result }
{
    match mode_in(properties) {
        Some(mode) => match member(properties, "template") {
            Some(template) => {
                with_template(alloc, at, mode, template, member(properties, "parameters"))
            }
            None => refused(at),
        },
        None => refused(at),
    }
}

// The same by its mode, its template and its parameters.
fn with_template(
    alloc: Global,
    at: DeploymentAt,
    mode: Mode,
    template: &Value,
    parameters: Option<&Value>,
) -> Result<Ask, BodyFault>
    ensures { Asks (deployment_with at (Some mode) (Some (json template.now))
        (option_map (λ v. json v.now) parameters.entry)) result }
{
    match template.to_json(alloc) {
        Ok(template) => match copy_value(alloc, parameters) {
            Ok(parameters) => Ok(Ask::Deploy {
                subscription: at.subscription,
                group: at.group,
                name: at.name,
                mode,
                template,
                parameters,
            }),
            Err(_) => run_out((at, template)),
        },
        Err(_) => run_out(at),
    }
}

// That a lock is set: `{properties: {level, notes}}`.
fn lock_asked(alloc: Global, at: LockAt, body: &Value) -> Result<Ask, BodyFault>
    ensures { Asks (lock_asked at (json body.now)) result }
{
    match member(body, "properties") {
        Some(properties) => lock_in(alloc, at, properties),
        None => refused(at),
    }
}

// The same by its properties.
fn lock_in(alloc: Global, at: LockAt, properties: &Value) -> Result<Ask, BodyFault>
    ensures { Asks (lock_in at (json properties.now)) result }
{
    match level_in(properties) {
        Some(level) => match notes_in(alloc, properties) {
            Ok(Some(notes)) => Ok(Ask::PutLock { at, level, notes }),
            Ok(None) => refused(at),
            Err(_) => run_out(at),
        },
        None => refused(at),
    }
}
