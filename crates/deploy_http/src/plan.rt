// What a head asks, and how long its body is.

ghost use Rattle.std.specs.Prelude.{◌≡◌, ◌≤◌, length, IsUtf8, IfOk, IsErrOf};
ghost use Rattle.httparse.specs.Grammar.{RequestHead};
ghost use Rattle.httparse.specs.Spans.{span_bytes, IsWithin};
ghost use Rattle.http_heads.specs.Fronts.{IsHead};
ghost use Rattle.http_requests.specs.Calls.{call_of, called};
ghost use Rattle.http_requests.specs.Verbs.{verb_of};
ghost use Rattle.http_routes.specs.Targets.{target_of};
ghost use Rattle.deploy_http.specs.Plans.{planned, routed, form_fault, fields_fault, length_by, no_length};
ghost use Rattle.deploy_http.specs.Plans.{by_version, call_on, of_route};
ghost use Rattle.deploy_http.specs.Answers.{Gives, plan_seen};

use crate::fault::{HttpFault, letting_go};
use http_heads::{BodyLength, Head, MAX_FIELDS};
use http_requests::{Call, Verb, call_of, verb_of};
use http_routes::{RouteFault, Routes, Target, read_target};
use std::alloc::Global;

/// What a head asks.
#[derive(Drop)]
pub(crate) struct Plan {
    /// What its method asks of its route.
    pub(crate) call: Call,
    /// How many bytes the head has.
    pub(crate) head: usize,
    /// How many bytes the body has.
    pub(crate) body: usize,
    /// Whether the connection is closed after the request.
    pub(crate) close: bool,
}

/// What the head asks, which is at the front of the bytes. The first of these decides: the form of the length, the
/// number of fields, whether there is a length, the length, the path, the route, the method, the query.
pub(crate) fn plan_of(
    alloc: Global,
    routes: &Routes,
    bytes: &[u8],
    head: &Head,
) -> Result<Plan, HttpFault>
    requires { (h : RequestHead) × IsHead bytes.now head.now h }
    ensures plan { (h : RequestHead) → IsHead bytes.now head.now h → Gives plan_seen (planned h) result }
    ensures head { IfOk result (λ plan. plan.head ≡ head.now.length) }
    ensures small { IfOk result (λ plan. plan.body ≤ 4194304) }
    ensures unread { IsErrOf result HttpFault.ReadFault → ⊥ }
{
    match form_fault(head) {
        Some(fault) => Err(fault),
        None => routed(alloc, routes, bytes, head),
    }
}

// What is wrong with the form of a head.
fn form_fault(head: &Head) -> Option<HttpFault>
    ensures form { result ≡ form_fault head.now.body head.now.fields }
    ensures unread { result ≡ Some HttpFault.ReadFault → ⊥ }
{
    match head.body {
        BodyLength::Absent => fields_fault(head.fields),
        BodyLength::Bytes(_) => fields_fault(head.fields),
        BodyLength::TooLarge => fields_fault(head.fields),
        BodyLength::Bad => Some(HttpFault::BadRequest),
    }
}

// What is wrong with this number of fields.
fn fields_fault(fields: usize) -> Option<HttpFault>
    ensures form { result ≡ fields_fault fields }
    ensures unread { result ≡ Some HttpFault.ReadFault → ⊥ }
{
    if fields > MAX_FIELDS {
        return Some(HttpFault::HeadTooLarge);
    }
    None
}

// What a head asks that has its form.
fn routed(alloc: Global, routes: &Routes, bytes: &[u8], head: &Head) -> Result<Plan, HttpFault>
    requires method { IsWithin (length bytes.now) head.now.method }
    requires target { IsWithin (length bytes.now) head.now.target }
    requires text { IsUtf8 (span_bytes bytes.now head.now.target) }
    ensures plan { Gives plan_seen (routed head.now.coded head.now.body
        (verb_of (span_bytes bytes.now head.now.method))
        (target_of (span_bytes bytes.now head.now.target)) head.now.close) result }
    ensures head { IfOk result (λ plan. plan.head ≡ head.now.length) }
    ensures body { IfOk result (λ plan. length_by head.now.coded head.now.body
        (verb_of (span_bytes bytes.now head.now.method)) ≡ Ok plan.body) }
    ensures unread { IsErrOf result HttpFault.ReadFault → ⊥ }
{
    let verb = verb_of(head.method.of(bytes));
    match length_by(head, verb) {
        Ok(body) => routed_with(alloc, routes, head.target.of(bytes), head, verb, body),
        Err(fault) => Err(fault),
    }
}

// The same, with the length of the body.
fn routed_with(
    alloc: Global,
    routes: &Routes,
    target: &[u8],
    head: &Head,
    verb: Verb,
    body: usize,
) -> Result<Plan, HttpFault>
    requires text { IsUtf8 target.now }
    requires sized { length_by head.now.coded head.now.body verb ≡ Ok body }
    ensures plan { Gives plan_seen (routed head.now.coded head.now.body verb (target_of target.now)
        head.now.close) result }
    ensures head { IfOk result (λ plan. plan.head ≡ head.now.length) }
    ensures body { IfOk result (λ plan. plan.body ≡ body) }
    ensures unread { IsErrOf result HttpFault.ReadFault → ⊥ }
{
    match call_by(alloc, routes, target, verb) {
        Ok(call) => Ok(Plan {
            call,
            head: head.length,
            body,
            close: head.close,
        }),
        Err(fault) => Err(fault),
    }
}

// How many bytes the body has.
fn length_by(head: &Head, verb: Verb) -> Result<usize, HttpFault>
    ensures { result ≡ length_by head.now.coded head.now.body verb }
{
    if head.coded {
        return Err(HttpFault::LengthRequired);
    }
    match head.body {
        BodyLength::Absent => no_length(verb),
        BodyLength::Bytes(count) => Ok(count),
        BodyLength::TooLarge => Err(HttpFault::BodyTooLarge),
        BodyLength::Bad => Err(HttpFault::BadRequest),
    }
}

// The length of a body whose length is not given.
fn no_length(verb: Verb) -> Result<usize, HttpFault>
    ensures { result ≡ no_length verb }
{
    match verb {
        Verb::Put => Err(HttpFault::LengthRequired),
        Verb::Post => Err(HttpFault::LengthRequired),
        Verb::Get => Ok(0),
        Verb::Delete => Ok(0),
        Verb::Other => Ok(0),
    }
}

// What the method asks of the target's route.
fn call_by(alloc: Global, routes: &Routes, target: &[u8], verb: Verb) -> Result<Call, HttpFault>
    requires { IsUtf8 target.now }
    ensures call { Gives called (call_on (target_of target.now) verb) result }
    ensures unread { IsErrOf result HttpFault.ReadFault → ⊥ }
{
    match read_target(alloc, routes, target) {
        Ok(target) => call_at(target, verb),
        Err(fault) => Err(of_route(fault)),
    }
}

// Why a target has no route.
fn of_route(fault: RouteFault) -> HttpFault
    ensures { result ≡ of_route fault }
{
    match fault {
        RouteFault::BadSegment => HttpFault::BadRequest,
        RouteFault::NoRoute => HttpFault::NotFound,
        RouteFault::OutOfMemory => HttpFault::OutOfMemory,
    }
}

// What the method asks of the target's route, where the query has a version.
fn call_at(target: Target, verb: Verb) -> Result<Call, HttpFault>
    ensures call { Gives called (by_version (call_of target.route verb) target.versioned) result }
    ensures unread { IsErrOf result HttpFault.ReadFault → ⊥ }
{
    let versioned = target.versioned;
    match call_of(target.route, verb) {
        Some(call) => by_version(call, versioned),
        None => Err(HttpFault::MethodNotAllowed),
    }
}

// The call, where the query has a version.
fn by_version(call: Call, versioned: bool) -> Result<Call, HttpFault>
    ensures call { Gives called (by_version (Some (called call)) versioned) result }
    ensures unread { IsErrOf result HttpFault.ReadFault → ⊥ }
{
    if versioned {
        return Ok(call);
    }
    letting_go(Err(HttpFault::MissingApiVersion), call)
}
