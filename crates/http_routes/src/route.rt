// Routes.

ghost use Rattle.std.specs.Prelude.{◌≡◌, None, map, IfOk};
ghost use Rattle.http_routes.specs.Routes.{route_of, deployment_route, deployment_of, are_deployments, asked, asked_by};
ghost use Rattle.http_routes.specs.Routes.{provider_route, lock_route, lock_at, are_locks, lock_on, id_of};
ghost use Rattle.http_routes.specs.Routes.{resource_route, group_at, deployment_at};
ghost use Rattle.http_routes.specs.Seen.{seen};
ghost use Rattle.http_routes.specs.declared.pattern.Pattern.TheVariants as pattern;

use crate::id::{id_of, key_of, scope_of};
use crate::pattern::Pattern;
use crate::places::{DeploymentAt, GroupAt, LockAt, ResourceAt};
use crate::segment::{Segment, is_word};
use arm_value::{OutOfMemory, Text};
use std::alloc::Global;

/// What a path means.
#[derive(Drop)]
pub enum Route {
    /// The resource groups of a subscription.
    Groups(Text),
    /// A resource group.
    Group(GroupAt),
    /// The resources of a group.
    Resources(GroupAt),
    /// A deployment.
    Deployment(DeploymentAt),
    /// That a deployment goes on.
    Resume(DeploymentAt),
    /// That a deployment is given up.
    Abandon(DeploymentAt),
    /// A lock.
    Lock(LockAt),
    /// A resource.
    Resource(ResourceAt),
}

/// The route of a path that matches the pattern and has these segments.
pub(crate) fn route_of(
    alloc: Global,
    pattern: Pattern,
    segments: &[Segment],
) -> Result<Option<Route>, OutOfMemory>
    ensures { IfOk result (λ route. route ≡ route_of pattern (map seen segments.now)) }
{
    match pattern {
        Pattern::Groups => groups(alloc, segments),
        Pattern::Group => group(alloc, segments),
        Pattern::Resources => resources(alloc, segments),
        Pattern::InGroup => in_group(alloc, segments),
        Pattern::InSubscription => provider_route(alloc, segments),
    }
}

// The groups of the subscription that the segments name.
fn groups(alloc: Global, segments: &[Segment]) -> Result<Option<Route>, OutOfMemory>
    ensures { IfOk result (λ route. route ≡ route_of pattern.Groups (map seen segments.now)) }
{
    match segments {
        [_, subscription, ..] => Ok(Some(Route::Groups(subscription.name.copy(alloc)?))),
        _ => Ok(None),
    }
}

// The group that the segments name.
fn group(alloc: Global, segments: &[Segment]) -> Result<Option<Route>, OutOfMemory>
    ensures { IfOk result (λ route. route ≡ route_of pattern.Group (map seen segments.now)) }
{
    match segments {
        [_, subscription, _, group, ..] => {
            Ok(Some(Route::Group(group_at(alloc, subscription, group)?)))
        }
        _ => Ok(None),
    }
}

// The resources of the group that the segments name.
fn resources(alloc: Global, segments: &[Segment]) -> Result<Option<Route>, OutOfMemory>
    ensures { IfOk result (λ route. route ≡ route_of pattern.Resources (map seen segments.now)) }
{
    match segments {
        [_, subscription, _, group, ..] => {
            Ok(Some(Route::Resources(group_at(alloc, subscription, group)?)))
        }
        _ => Ok(None),
    }
}

// What a provider has in a group: a deployment, else a lock or a resource.
fn in_group(alloc: Global, segments: &[Segment]) -> Result<Option<Route>, OutOfMemory>
    ensures { IfOk result (λ route. route ≡ route_of pattern.InGroup (map seen segments.now)) }
{
    match deployment_route(alloc, segments)? {
        Some(route) => Ok(Some(route)),
        None => provider_route(alloc, segments),
    }
}

// The deployment that the segments name.
fn deployment_route(alloc: Global, segments: &[Segment]) -> Result<Option<Route>, OutOfMemory>
    ensures { IfOk result (λ route. route ≡ deployment_route (map seen segments.now)) }
{
    match segments {
        [_, subscription, _, group, _, rest @ ..] => {
            deployment_of(alloc, subscription, group, rest)
        }
        _ => Ok(None),
    }
}

// The deployment in a group that the segments after `providers` name, or what is asked of it.
fn deployment_of(
    alloc: Global,
    subscription: &Segment,
    group: &Segment,
    rest: &[Segment],
) -> Result<Option<Route>, OutOfMemory>
    ensures { IfOk result (λ route. route
        ≡ deployment_of (seen subscription.now) (seen group.now) (map seen rest.now)) }
{
    match rest {
        [provider, kind, name, more @ ..] => {
            if !are_deployments(provider, kind) {
                return Ok(None);
            }
            let at = deployment_at(alloc, subscription, group, name)?;
            Ok(asked_by(more, at))
        }
        _ => Ok(None),
    }
}

// The deployment, or what the word after its name asks of it.
fn asked_by(more: &[Segment], deployment: DeploymentAt) -> Option<Route>
    ensures { result ≡ asked_by (map seen more.now) deployment }
{
    match more {
        [word, after @ ..] => {
            if after.is_empty() {
                asked(word, deployment)
            } else {
                nothing(deployment)
            }
        }
        [] => Some(Route::Deployment(deployment)),
    }
}

// Nothing; the part is dropped.
fn nothing<T: Drop>(_part: T) -> Option<Route>
    ensures { result ≡ None }
{
    None
}

// Whether these are the words of the type of deployments.
fn are_deployments(provider: &Segment, kind: &Segment) -> bool
    ensures { result ≡ are_deployments (seen provider.now) (seen kind.now) }
{
    is_word("microsoft.resources", provider) && is_word("deployments", kind)
}

// What is asked of a deployment by a word after its name.
fn asked(word: &Segment, deployment: DeploymentAt) -> Option<Route>
    ensures { result ≡ asked (seen word.now) deployment }
{
    if is_word("resume", word) {
        return Some(Route::Resume(deployment));
    }
    if is_word("abandon", word) {
        return Some(Route::Abandon(deployment));
    }
    None
}

// A lock, else a resource.
fn provider_route(alloc: Global, segments: &[Segment]) -> Result<Option<Route>, OutOfMemory>
    ensures { IfOk result (λ route. route ≡ provider_route (map seen segments.now)) }
{
    match lock_route(alloc, segments)? {
        Some(route) => Ok(Some(route)),
        None => resource_route(alloc, segments),
    }
}

// The lock that a path ends in.
fn lock_route(alloc: Global, segments: &[Segment]) -> Result<Option<Route>, OutOfMemory>
    ensures { IfOk result (λ route. route ≡ lock_route (map seen segments.now)) }
{
    if segments.len() < 4 {
        return Ok(None);
    }
    let (front, last) = segments.split_at(segments.len() - 4);
    lock_at(alloc, front, last)
}

// The lock whose four segments follow those of its scope.
fn lock_at(alloc: Global, front: &[Segment], last: &[Segment]) -> Result<Option<Route>, OutOfMemory>
    ensures { IfOk result (λ route. route ≡ lock_at (map seen front.now) (map seen last.now)) }
{
    match last {
        [providers, provider, kind, name, ..] => {
            if !are_locks(providers, provider, kind) {
                return Ok(None);
            }
            lock_on(alloc, front, name)
        }
        _ => Ok(None),
    }
}

// Whether these are the fixed words of the path of a lock.
fn are_locks(providers: &Segment, provider: &Segment, kind: &Segment) -> bool
    ensures { result ≡ are_locks (seen providers.now) (seen provider.now) (seen kind.now) }
{
    if !is_word("providers", providers) {
        return false;
    }
    is_word("microsoft.authorization", provider) && is_word("locks", kind)
}

// The lock of this name on the scope whose id these segments are.
fn lock_on(alloc: Global, front: &[Segment], name: &Segment) -> Result<Option<Route>, OutOfMemory>
    ensures { IfOk result (λ route. route ≡ lock_on (id_of (map seen front.now)) (seen name.now).name) }
{
    let id = id_of(alloc, front)?;
    let name = name.name.copy(alloc)?;
    match scope_of(alloc, &id)? {
        Some(scope) => Ok(Some(Route::Lock(LockAt { scope, id, name }))),
        None => Ok(None),
    }
}

// The resource whose id the path is.
fn resource_route(alloc: Global, segments: &[Segment]) -> Result<Option<Route>, OutOfMemory>
    ensures { IfOk result (λ route. route ≡ resource_route (map seen segments.now)) }
{
    let id = id_of(alloc, segments)?;
    match key_of(alloc, &id)? {
        Some(key) => Ok(Some(Route::Resource(ResourceAt { key, id }))),
        None => Ok(None),
    }
}

// A group of a subscription.
fn group_at(alloc: Global, subscription: &Segment, group: &Segment) -> Result<GroupAt, OutOfMemory>
    ensures { IfOk result (λ at. at ≡ group_at (seen subscription.now) (seen group.now)) }
{
    let subscription = subscription.name.copy(alloc)?;
    let group = group.name.copy(alloc)?;
    Ok(GroupAt {
        subscription,
        group,
    })
}

// A deployment in a group.
fn deployment_at(
    alloc: Global,
    subscription: &Segment,
    group: &Segment,
    name: &Segment,
) -> Result<DeploymentAt, OutOfMemory>
    ensures { IfOk result (λ at. at ≡ deployment_at (seen subscription.now) (seen group.now) (seen name.now)) }
{
    let subscription = subscription.name.copy(alloc)?;
    let group = group.name.copy(alloc)?;
    let name = name.name.copy(alloc)?;
    Ok(DeploymentAt {
        subscription,
        group,
        name,
    })
}
