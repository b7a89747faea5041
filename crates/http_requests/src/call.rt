// What a method asks of a route.

ghost use Rattle.std.specs.Prelude.{◌≡◌, option_map};
ghost use Rattle.http_requests.specs.Calls.{called, call_of, group_call, deployment_call, lock_call, resource_call};
ghost use Rattle.http_requests.specs.Calls.{groups_call, resources_call, resume_call, abandon_call};

use crate::ask::Ask;
use crate::fault::letting_go;
use crate::verb::Verb;
use arm_value::Text;
use http_routes::{DeploymentAt, GroupAt, LockAt, ResourceAt, Route};

/// What a method asks of a route, before the body is read.
#[derive(Drop)]
pub enum Call {
    /// This. The body is not used.
    Ready(Ask),
    /// A group, whose location the body has.
    PutGroup(GroupAt),
    /// A deployment, whose template the body has.
    Deploy(DeploymentAt),
    /// A lock, whose level the body has.
    PutLock(LockAt),
}

/// What the method asks of the route; none where the route has not the method.
pub fn call_of(route: Route, verb: Verb) -> Option<Call>
    ensures { option_map called result ≡ call_of route verb }
{
    match route {
        Route::Groups(subscription) => groups_call(subscription, verb),
        Route::Group(at) => group_call(at, verb),
        Route::Resources(at) => resources_call(at, verb),
        Route::Deployment(at) => deployment_call(at, verb),
        Route::Resume(at) => resume_call(at, verb),
        Route::Abandon(at) => abandon_call(at, verb),
        Route::Lock(at) => lock_call(at, verb),
        Route::Resource(at) => resource_call(at, verb),
    }
}

// Nothing; the part is dropped.
fn refused<T: Drop>(part: T) -> Option<Call>
    ensures { option_map called result ≡ None }
{
    letting_go(None, part)
}

fn groups_call(subscription: Text, verb: Verb) -> Option<Call>
    ensures { option_map called result ≡ groups_call subscription verb }
{
    match verb {
        Verb::Get => Some(Call::Ready(Ask::ListGroups(subscription))),
        Verb::Put => refused(subscription),
        Verb::Post => refused(subscription),
        Verb::Delete => refused(subscription),
        Verb::Other => refused(subscription),
    }
}

fn group_call(at: GroupAt, verb: Verb) -> Option<Call>
    ensures { option_map called result ≡ group_call at verb }
{
    match verb {
        Verb::Get => Some(Call::Ready(Ask::GetGroup(at))),
        Verb::Put => Some(Call::PutGroup(at)),
        Verb::Post => refused(at),
        Verb::Delete => Some(Call::Ready(Ask::DeleteGroup(at))),
        Verb::Other => refused(at),
    }
}

fn resources_call(at: GroupAt, verb: Verb) -> Option<Call>
    ensures { option_map called result ≡ resources_call at verb }
{
    match verb {
        Verb::Get => Some(Call::Ready(Ask::ListResources(at))),
        Verb::Put => refused(at),
        Verb::Post => refused(at),
        Verb::Delete => refused(at),
        Verb::Other => refused(at),
    }
}

fn deployment_call(at: DeploymentAt, verb: Verb) -> Option<Call>
    ensures { option_map called result ≡ deployment_call at verb }
{
    match verb {
        Verb::Get => Some(Call::Ready(Ask::GetDeployment(at))),
        Verb::Put => Some(Call::Deploy(at)),
        Verb::Post => refused(at),
        Verb::Delete => refused(at),
        Verb::Other => refused(at),
    }
}

fn resume_call(at: DeploymentAt, verb: Verb) -> Option<Call>
    ensures { option_map called result ≡ resume_call at verb }
{
    match verb {
        Verb::Post => Some(Call::Ready(Ask::Resume(Some(at)))),
        Verb::Get => refused(at),
        Verb::Put => refused(at),
        Verb::Delete => refused(at),
        Verb::Other => refused(at),
    }
}

fn abandon_call(at: DeploymentAt, verb: Verb) -> Option<Call>
    ensures { option_map called result ≡ abandon_call at verb }
{
    match verb {
        Verb::Post => Some(Call::Ready(Ask::Abandon(Some(at)))),
        Verb::Get => refused(at),
        Verb::Put => refused(at),
        Verb::Delete => refused(at),
        Verb::Other => refused(at),
    }
}

fn lock_call(at: LockAt, verb: Verb) -> Option<Call>
    ensures { option_map called result ≡ lock_call at verb }
{
    match verb {
        Verb::Get => Some(Call::Ready(Ask::GetLock(at))),
        Verb::Put => Some(Call::PutLock(at)),
        Verb::Post => refused(at),
        Verb::Delete => Some(Call::Ready(Ask::DeleteLock(at))),
        Verb::Other => refused(at),
    }
}

fn resource_call(at: ResourceAt, verb: Verb) -> Option<Call>
    ensures { option_map called result ≡ resource_call at verb }
{
    match verb {
        Verb::Get => Some(Call::Ready(Ask::GetResource(at))),
        Verb::Put => refused(at),
        Verb::Post => refused(at),
        Verb::Delete => Some(Call::Ready(Ask::DeleteResource(at))),
        Verb::Other => refused(at),
    }
}
