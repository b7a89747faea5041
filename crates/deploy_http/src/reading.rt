// Requests, read from a source.

ghost use Rattle.std.specs.Prelude.{◌≡◌, ℕ, ◌≤◌, ◌+◌, List, [], ◌++◌, length, max, true, IsErrOf, IfOk};
ghost use Rattle.std.specs.Prelude.{IfSome, IfNone};
ghost use Rattle.deploy_http.specs.Answers.{Answers, Fits, HasPlan, PlansInput, of_body};
ghost use Rattle.deploy_http.specs.Faults.{ReadCause};
ghost use Rattle.deploy_http.specs.Requests.{IsAnswer};

use crate::due::Due;
use crate::fault::{HttpFault, letting_go};
use crate::front::{Look, due_look, last_plan};
use crate::plan::Plan;
use crate::request::Request;
use crate::taking::{fill, take_more};
use arm_edges::Source;
use arm_value::Bytes;
use http_heads::MAX_HEAD_BYTES;
use http_requests::{BodyFault, finish};
use http_routes::Routes;
use std::alloc::Global;

/// The next request of the bytes that are there and those that the source gives after them; none at an end before any
/// byte. What follows the request is left. After an error some bytes may be gone, and the connection is over. Memory is
/// taken for bytes that came, whatever a head says of a length.
pub fn read_request<S: Source>(
    alloc: Global,
    source: &mut S,
    rest: &mut Bytes,
) -> Result<Option<Request>, HttpFault>
    ensures answer { S.tells_rest ≡ true → IsAnswer (rest.old ++ S.rest source.old) result
        (rest.new ++ S.rest source.new) (S.rest source.new) }
    ensures kept { IfOk result (λ request. length rest.new ≤ max (length rest.old) 16384) }
    ensures room { length rest.new ≤ max (length rest.old) 4210688 }
    ensures apart { S.outgoing source.new ≡ S.outgoing source.old }
    ensures cause { ReadCause (S.faults source.old) (S.faults source.new) result }
{
    match Routes::new(alloc) {
        Ok(routes) => next_request(alloc, &routes, source, rest),
        Err(_) => Err(HttpFault::OutOfMemory),
    }
}

/// The same, by routes that the caller keeps: `read_request` makes them for each request.
pub fn next_request<S: Source>(
    alloc: Global,
    routes: &Routes,
    source: &mut S,
    rest: &mut Bytes,
) -> Result<Option<Request>, HttpFault>
    ensures answer { S.tells_rest ≡ true → IsAnswer (rest.old ++ S.rest source.old) result
        (rest.new ++ S.rest source.new) (S.rest source.new) }
    ensures kept { IfOk result (λ request. length rest.new ≤ max (length rest.old) 16384) }
    ensures room { length rest.new ≤ max (length rest.old) 4210688 }
    ensures apart { S.outgoing source.new ≡ S.outgoing source.old }
    ensures cause { ReadCause (S.faults source.old) (S.faults source.new) result }
{
    match next_plan(alloc, routes, source, rest) {
        Ok(plan) => asked(alloc, source, rest, plan),
        Err(fault) => Err(fault),
    }
}

// The request of the head of this plan, if there is one.
fn asked<S: Source>(
    alloc: Global,
    source: &mut S,
    rest: &mut Bytes,
    plan: Option<Plan>,
) -> Result<Option<Request>, HttpFault>
    requires { IfSome plan (HasPlan rest.old) }
    ensures answer { S.tells_rest ≡ true → IfNone plan (rest.old ++ S.rest source.old ≡ [])
        → IsAnswer (rest.old ++ S.rest source.old) result (rest.new ++ S.rest source.new)
        (S.rest source.new) }
    ensures kept { IfOk result (λ request. length rest.new ≤ length rest.old) }
    ensures room { length rest.new ≤ max (length rest.old) 4210688 }
    ensures apart { S.outgoing source.new ≡ S.outgoing source.old }
    ensures cause { ReadCause (S.faults source.old) (S.faults source.new) result }
{
    match plan {
        Some(plan) => match planned(alloc, source, rest, plan) {
            Ok(request) => Ok(Some(request)),
            Err(fault) => Err(fault),
        },
        None => Ok(None),
    }
}

// The request of a head that is at the front of the bytes.
fn planned<S: Source>(
    alloc: Global,
    source: &mut S,
    rest: &mut Bytes,
    plan: Plan,
) -> Result<Request, HttpFault>
    requires { HasPlan rest.old plan }
    ensures answer { S.tells_rest ≡ true → Answers (rest.old ++ S.rest source.old) result
        (rest.new ++ S.rest source.new) (S.rest source.new) }
    ensures kept { IfOk result (λ request. length rest.new ≤ length rest.old) }
    ensures room { length rest.new ≤ max (length rest.old) 4210688 }
    ensures apart { S.outgoing source.new ≡ S.outgoing source.old }
    ensures cause { ReadCause (S.faults source.old) (S.faults source.new) result }
{
    match fill(source, rest, plan.head + plan.body) {
        Ok(full) => if full {
            finished(alloc, rest, plan)
        } else {
            letting_go(Err(HttpFault::BadRequest), plan)
        },
        Err(fault) => letting_go(Err(fault), plan),
    }
}

// The request of a head that is at the front of the bytes, with its body.
fn finished(alloc: Global, rest: &mut Bytes, plan: Plan) -> Result<Request, HttpFault>
    requires plan { HasPlan rest.old plan }
    requires whole { plan.head + plan.body ≤ length rest.old }
    ensures answer { (coming : List ℕ)
        → Answers (rest.old ++ coming) result (rest.new ++ coming) coming }
    ensures unread { IsErrOf result HttpFault.ReadFault → ⊥ }
    ensures kept { IfOk result (λ request.
        length rest.new + (plan.head + plan.body) ≡ length rest.old) }
    ensures room { length rest.new ≤ length rest.old }
{
    let (head, close) = (plan.head, plan.close);
    let end = head + plan.body;
    match finish(alloc, plan.call, &rest.as_slice()[head..end]) {
        Ok(ask) => {
            rest.remove_front(end);
            Ok(Request { ask, close })
        }
        Err(fault) => Err(of_body(fault)),
    }
}

// How a body is refused.
fn of_body(fault: BodyFault) -> HttpFault
    ensures { result ≡ of_body fault }
{
    match fault {
        BodyFault::BadBody => HttpFault::BadRequest,
        BodyFault::OutOfMemory => HttpFault::OutOfMemory,
    }
}

// What the next head asks; none at an end before any byte.
fn next_plan<S: Source>(
    alloc: Global,
    routes: &Routes,
    source: &mut S,
    rest: &mut Bytes,
) -> Result<Option<Plan>, HttpFault>
    ensures plan { S.tells_rest ≡ true
        → PlansInput (rest.old ++ S.rest source.old) result rest.new (S.rest source.new) }
    ensures fits { Fits rest.new result }
    ensures room { length rest.new ≤ max (length rest.old) 16384 }
    ensures apart { S.outgoing source.new ≡ S.outgoing source.old }
    ensures cause { ReadCause (S.faults source.old) (S.faults source.new) result }
{
    let mut due = Due::new();
    loop {
        let bytes = rest.as_slice();
        let now = due.is_due(bytes);
        match due_look(alloc, routes, now, bytes) {
            Look::Found(plan) => return Ok(Some(plan)),
            Look::NotYet => {}
            Look::Refused(fault) => return Err(fault),
        }
        let room = MAX_HEAD_BYTES - bytes.len();
        match take_more(source, rest, room) {
            Ok(taken) => if taken == 0 {
                return last_plan(alloc, routes, rest.as_slice());
            },
            Err(fault) => return Err(fault),
        }
    }
}
