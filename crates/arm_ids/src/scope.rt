// Scopes: what a lock can be set on, their ids, and what they cover.
ghost use Rattle.std.specs.Prelude.{◌≡◌, ◌↔◌, ◌∷◌, ◌&&◌, [], None, false, IsTrue, IfOk, IfErr, chars, codes};
ghost use Rattle.arm_value.specs.Look.{fold};
ghost use Rattle.arm_ids.specs.Segments.{segments};
ghost use Rattle.arm_ids.specs.Id.{IsKey};
ghost use Rattle.arm_ids.specs.Scope.{Covers, CoversGroup, IsInGroup, IsSame};
ghost use Rattle.arm_ids.specs.ScopeId.{scope_id, container_of, is_pair, is_start, IsPlainScope, IsIdOfScope};
ghost use Rattle.arm_ids.specs.ScopeId.{IsNoScope};
ghost use Rattle.arm_ids.specs.declared.scope.Scope.{Scope};
ghost use Rattle.arm_ids.specs.declared.scope.Scope.TheVariants.{Subscription, Group, Resource};

use crate::fault::IdFault;
use crate::key::Key;
use crate::segment::{segments, slashed};
use arm_value::{OutOfMemory, Text, folded_eq};
use std::alloc::Global;

/// What a lock can be set on: a subscription, a group of a subscription, or a resource.
///
/// Names have letters of any case, and a scope keeps them as they are spelled.
#[derive(Debug, Drop)]
pub enum Scope {
    /// A subscription.
    Subscription(Text),
    /// A subscription, and the name of a group in it.
    Group(Text, Text),
    /// A resource.
    Resource(Key),
}

impl Scope {
    /// The scope of which the text is the id. The fixed words may have letters of any case.
    ///
    /// The names of a subscription and of a group are as the text spells them.
    ///
    /// # Errors
    ///
    /// `NotAnId` exactly where the text is the id of no scope.
    pub fn read_id(alloc: Global, id: &str) -> Result<Scope, IdFault>
        ensures ok { IfOk result (IsIdOfScope (chars id.now)) }
        ensures only { IfOk result (λ scope. (other : Scope) → IsIdOfScope (chars id.now) other
            → other ≡ scope) }
        ensures fault { IfErr result (IsNoScope (chars id.now)) }
    {
        let segments = segments(alloc, id)?;
        match container(alloc, segments.as_slice())? {
            Some(scope) => Ok(scope),
            None => resource(alloc, id),
        }
    }

    /// The id of the scope: of a subscription and of a group as their names are spelled, of a
    /// resource in small ASCII letters.
    pub fn to_id(&self, alloc: Global) -> Result<Text, OutOfMemory>
        ensures text { IfOk result (λ t. t ≡ scope_id self.now) }
        ensures reads_back { IfOk result (λ t. IsPlainScope self.now → IsIdOfScope t self.now) }
    {
        match self {
            Scope::Subscription(subscription) => subscription_id(alloc, subscription),
            Scope::Group(subscription, group) => group_id(alloc, subscription, group),
            Scope::Resource(key) => key.to_id(alloc),
        }
    }

    /// An equal scope.
    pub fn copy(&self, alloc: Global) -> Result<Scope, OutOfMemory>
        ensures { IfOk result (λ scope. scope ≡ self.now) }
    {
        match self {
            Scope::Subscription(subscription) => Ok(Scope::Subscription(subscription.copy(alloc)?)),
            Scope::Group(subscription, group) => group_copy(alloc, subscription, group),
            Scope::Resource(key) => Ok(Scope::Resource(key.copy(alloc)?)),
        }
    }

    /// Whether both are one scope, whatever the case of letters.
    pub fn same(&self, other: &Scope) -> bool
        ensures { IsTrue result ↔ IsSame self.now other.now }
    {
        match self {
            Scope::Subscription(subscription) => other.is_subscription(subscription),
            Scope::Group(subscription, group) => other.is_group(subscription, group),
            Scope::Resource(key) => other.is_resource(key),
        }
    }

    /// Whether the scope covers the key: whether its segments are the first of the key's, whatever
    /// the case of letters.
    pub fn begins(&self, key: &Key) -> bool
        ensures { IsTrue result ↔ Covers self.now key.now }
    {
        let parts = key.parts();
        match self {
            Scope::Subscription(subscription) => same_name(subscription, &parts.subscription),
            Scope::Group(subscription, group) => {
                same_group(subscription, group, &parts.subscription, &parts.group)
            }
            Scope::Resource(resource) => resource.parts().begins(parts),
        }
    }

    /// Whether the scope covers the group of the subscription: whether it is that group or its
    /// subscription, whatever the case of letters.
    pub fn covers_group(&self, subscription: &Text, group: &Text) -> bool
        ensures { IsTrue result ↔ CoversGroup self.now subscription.now group.now }
    {
        match self {
            Scope::Subscription(own) => same_name(own, subscription),
            Scope::Group(own, own_group) => same_group(own, own_group, subscription, group),
            Scope::Resource(key) => is_a_group(key),
        }
    }

    /// Whether the scope is the group of the subscription or a resource in it, whatever the case of
    /// letters.
    pub fn is_in_group(&self, subscription: &Text, group: &Text) -> bool
        ensures { IsTrue result ↔ IsInGroup self.now subscription.now group.now }
    {
        match self {
            Scope::Subscription(_) => false,
            Scope::Group(own, own_group) => same_group(subscription, group, own, own_group),
            Scope::Resource(key) => {
                let parts = key.parts();
                same_group(subscription, group, &parts.subscription, &parts.group)
            }
        }
    }

    fn is_subscription(&self, subscription: &Text) -> bool
        ensures { IsTrue result ↔ IsSame (Subscription subscription.now) self.now }
    {
        match self {
            Scope::Subscription(own) => same_name(subscription, own),
            Scope::Group(_, _) => false,
            Scope::Resource(_) => false,
        }
    }

    fn is_group(&self, subscription: &Text, group: &Text) -> bool
        ensures { IsTrue result ↔ IsSame (Group subscription.now group.now) self.now }
    {
        match self {
            Scope::Subscription(_) => false,
            Scope::Group(own, own_group) => same_group(subscription, group, own, own_group),
            Scope::Resource(key) => is_a_group(key),
        }
    }

    fn is_resource(&self, key: &Key) -> bool
        ensures { IsTrue result ↔ IsSame (Resource key.now) self.now }
    {
        match self {
            Scope::Subscription(_) => false,
            Scope::Group(_, _) => is_a_group(key),
            Scope::Resource(own) => same_key(key, own),
        }
    }
}

// Whether a key is a group. It is none, since it has a type and a name.
fn is_a_group(key: &Key) -> bool
    ensures none { result ≡ false }
    ensures is_key { IsKey key.now }
{
    let _parts = key.parts();
    false
}

// Whether both are one key.
fn same_key(key: &Key, other: &Key) -> bool
    ensures same { IsTrue result ↔ (key.now ≡ other.now) }
    ensures is_key { IsKey key.now }
    ensures is_other_key { IsKey other.now }
{
    let _parts = key.parts();
    let _other_parts = other.parts();
    key.same(other)
}

// Whether both names are equal but for the case of ASCII letters.
fn same_name(one: &Text, other: &Text) -> bool
    ensures { IsTrue result ↔ (fold one.now ≡ fold other.now) }
{
    folded_eq(one.as_str(), other.as_str())
}

// Whether both are one group of one subscription, but for the case of ASCII letters.
fn same_group(subscription: &Text, group: &Text, other: &Text, other_group: &Text) -> bool
    ensures { IsTrue result ↔ (fold subscription.now ≡ fold other.now)
        × (fold group.now ≡ fold other_group.now) }
{
    same_name(subscription, other) && same_name(group, other_group)
}

// The subscription or the group whose id has these segments, where there is one.
fn container(alloc: Global, segments: &[Text]) -> Result<Option<Scope>, OutOfMemory>
    ensures { IfOk result (λ scope. scope ≡ container_of segments.now) }
{
    match segments {
        [root, word, name] => read_subscription(alloc, root, word, name),
        [root, word, name, group_word, group] => {
            read_group(alloc, root, word, name, group_word, group)
        }
        _ => Ok(None),
    }
}

fn read_subscription(
    alloc: Global,
    root: &Text,
    word: &Text,
    name: &Text,
) -> Result<Option<Scope>, OutOfMemory>
    ensures { IfOk result (λ scope. scope ≡ container_of (root.now ∷ word.now ∷ name.now ∷ [])) }
{
    if !is_start(root, word, name) {
        return Ok(None);
    }
    Ok(Some(Scope::Subscription(name.copy(alloc)?)))
}

fn read_group(
    alloc: Global,
    root: &Text,
    word: &Text,
    name: &Text,
    group_word: &Text,
    group: &Text,
) -> Result<Option<Scope>, OutOfMemory>
    ensures { IfOk result (λ scope. scope
        ≡ container_of (root.now ∷ word.now ∷ name.now ∷ group_word.now ∷ group.now ∷ [])) }
{
    if !is_group_start(root, word, name, group_word, group) {
        return Ok(None);
    }
    Ok(Some(group_copy(alloc, name, group)?))
}

// Whether these are the segments of the id of a subscription.
fn is_start(root: &Text, word: &Text, name: &Text) -> bool
    ensures { result ≡ is_start root.now word.now name.now }
{
    if !root.is_empty() {
        return false;
    }
    is_pair("subscriptions", word, name)
}

// Whether these are the segments of the id of a group.
fn is_group_start(root: &Text, word: &Text, name: &Text, group_word: &Text, group: &Text) -> bool
    ensures { result ≡ (is_start root.now word.now name.now
        && is_pair (codes "resourceGroups") group_word.now group.now) }
{
    if !is_start(root, word, name) {
        return false;
    }
    is_pair("resourceGroups", group_word, group)
}

// Whether the segment is the fixed word, in letters of any case, and a name follows it.
fn is_pair(word: &str, segment: &Text, name: &Text) -> bool
    ensures { result ≡ is_pair (chars word.now) segment.now name.now }
{
    segment.equals_ignore_case(word) && !name.is_empty()
}

fn group_copy(alloc: Global, subscription: &Text, group: &Text) -> Result<Scope, OutOfMemory>
    ensures { IfOk result (λ scope. scope ≡ Group subscription.now group.now) }
{
    let subscription = subscription.copy(alloc)?;
    Ok(Scope::Group(subscription, group.copy(alloc)?))
}

// The resource whose id the text is, where the text is the id of no subscription and of no group.
fn resource(alloc: Global, id: &str) -> Result<Scope, IdFault>
    requires { container_of (segments (chars id.now)) ≡ None }
    ensures ok { IfOk result (IsIdOfScope (chars id.now)) }
    ensures only { IfOk result (λ scope. (other : Scope) → IsIdOfScope (chars id.now) other
        → other ≡ scope) }
    ensures fault { IfErr result (IsNoScope (chars id.now)) }
{
    match Key::read_id(alloc, id) {
        Ok(key) => Ok(Scope::Resource(key)),
        Err(fault) => Err(fault),
    }
}

fn subscription_id(alloc: Global, subscription: &Text) -> Result<Text, OutOfMemory>
    ensures { IfOk result (λ t. t ≡ scope_id (Subscription subscription.now)) }
{
    let id = slashed(alloc, &["subscriptions", subscription.as_str()])?;
    Ok(Text::from_string(id))
}

fn group_id(alloc: Global, subscription: &Text, group: &Text) -> Result<Text, OutOfMemory>
    ensures { IfOk result (λ t. t ≡ scope_id (Group subscription.now group.now)) }
{
    let id = slashed(
        alloc,
        &[
            "subscriptions",
            subscription.as_str(),
            "resourceGroups",
            group.as_str(),
        ],
    )?;
    Ok(Text::from_string(id))
}
