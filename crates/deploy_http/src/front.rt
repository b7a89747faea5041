// Heads at the front of bytes.

ghost use Rattle.std.specs.Prelude.{◌≡◌, IsErrOf};
ghost use Rattle.httparse.specs.Grammar.{RequestHead};
ghost use Rattle.http_heads.specs.Fronts.{IsFront, IsHead};
ghost use Rattle.deploy_http.specs.Answers.{Looks, LooksDue, PlansLast};
ghost use Rattle.deploy_http.specs.Requests.{window};

use crate::fault::HttpFault;
use crate::plan::{Plan, plan_of};
use http_heads::{Front, Head, MAX_HEAD_BYTES, read_head};
use http_routes::Routes;
use std::alloc::Global;

/// What a look at bytes finds.
#[derive(Drop)]
pub(crate) enum Look {
    /// A head that asks this.
    Found(Plan),
    /// No head yet.
    NotYet,
    /// A head that is refused, or that can have no head.
    Refused(HttpFault),
}

/// What the head asks that is at the front of the bytes, where it is due to look.
pub(crate) fn due_look(alloc: Global, routes: &Routes, due: bool, bytes: &[u8]) -> Look
    ensures { LooksDue due bytes.now result }
{
    if due {
        return look_now(alloc, routes, bytes);
    }
    Look::NotYet
}

/// What the head asks, after the end of the input; none where no byte is there.
pub(crate) fn last_plan(
    alloc: Global,
    routes: &Routes,
    bytes: &[u8],
) -> Result<Option<Plan>, HttpFault>
    ensures plan { PlansLast bytes.now result }
    ensures unread { IsErrOf result HttpFault.ReadFault → ⊥ }
{
    if bytes.is_empty() {
        return Ok(None);
    }
    match look_now(alloc, routes, bytes) {
        Look::Found(plan) => Ok(Some(plan)),
        Look::NotYet => Err(HttpFault::BadRequest),
        Look::Refused(fault) => Err(fault),
    }
}

// What the head asks that is at the front of the bytes.
fn look_now(alloc: Global, routes: &Routes, bytes: &[u8]) -> Look
    ensures { Looks bytes.now result }
{
    let start = window(bytes);
    match read_head(alloc, start) {
        Ok(front) => look_at(alloc, routes, bytes, start, front),
        Err(_) => Look::Refused(HttpFault::OutOfMemory),
    }
}

// What bytes ask whose start has this front.
fn look_at(alloc: Global, routes: &Routes, bytes: &[u8], start: &[u8], front: Front) -> Look
    requires start { start.now ≡ window bytes.now }
    requires front { IsFront (window bytes.now) front }
    ensures { Looks bytes.now result }
{
    match front {
        Front::Head(head) => look_at_head(alloc, routes, bytes, start, &head),
        Front::Hopeless => Look::Refused(HttpFault::BadRequest),
        Front::Unfinished => if bytes.len() < MAX_HEAD_BYTES {
            Look::NotYet
        } else {
            Look::Refused(HttpFault::HeadTooLarge)
        },
    }
}

// What bytes ask whose start has this head.
fn look_at_head(alloc: Global, routes: &Routes, bytes: &[u8], start: &[u8], head: &Head) -> Look
    requires start { start.now ≡ window bytes.now }
    requires head { (h : RequestHead) × IsHead (window bytes.now) head.now h }
    ensures { Looks bytes.now result }
{
    match plan_of(alloc, routes, start, head) {
        Ok(plan) => Look::Found(plan),
        Err(fault) => Look::Refused(fault),
    }
}

// The bytes in which a head must end.
fn window(bytes: &[u8]) -> &[u8]
    ensures { result.now ≡ window bytes.now }
{
    &bytes[..bytes.len().min(MAX_HEAD_BYTES)]
}
