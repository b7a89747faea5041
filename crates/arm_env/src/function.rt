// The functions of the evaluator, and their names.
ghost use Rattle.std.specs.Prelude.{◌≡◌};
ghost use Rattle.arm_env.specs.Names.{lazy_named, placed_named, strict_named};

use arm_value::Text;

/// A function that looks at its arguments only as far as needed.
#[derive(Clone, Copy, PartialEq, Eq, Debug)]
pub enum Lazy {
    /// `if(condition, then, else)`
    If,
    /// `and(a, b, ..)`
    And,
    /// `or(a, b, ..)`
    Or,
    /// `coalesce(a, b, ..)`
    Coalesce,
}

/// A function of the values of all its arguments that needs an environment.
#[derive(Clone, Copy, PartialEq, Eq, Debug)]
pub enum Strict {
    /// `parameters(name)`
    Parameters,
    /// `variables(name)`
    Variables,
    /// `reference(resource)`, `reference(resource, version)` and
    /// `reference(resource, version, 'Full')`
    Reference,
    /// `copyIndex()`, `copyIndex(offset)`, `copyIndex(loop)` and `copyIndex(loop, offset)`
    CopyIndex,
    /// `resourceId(type, name, ..)`; a group, or a subscription and a group, may come before the
    /// type
    ResourceId,
    /// `subscriptionResourceId(type, name, ..)`; a subscription may come before the type
    SubscriptionResourceId,
    /// `resourceGroup()`
    ResourceGroup,
    /// `subscription()`
    Subscription,
    /// `deployment()`
    Deployment,
}

/// What `reference` asks of a state: its properties, or the whole.
#[derive(Clone, Copy, PartialEq, Eq, Debug)]
pub enum Asked {
    /// The value of its member `properties`.
    Properties,
    /// The state as it is.
    Whole,
}

/// The function of the name that looks at its arguments only as far as needed.
#[tactic(auto, unfolding(crate::specs::Names::lazy_named), using(crate::proofs::Words::words))]
pub fn lazy_named(name: &Text) -> Option<Lazy>
    ensures { result ≡ lazy_named name.now }
{
    if name.equals_ignore_case("if") {
        Some(Lazy::If)
    } else if name.equals_ignore_case("and") {
        Some(Lazy::And)
    } else if name.equals_ignore_case("or") {
        Some(Lazy::Or)
    } else if name.equals_ignore_case("coalesce") {
        Some(Lazy::Coalesce)
    } else {
        None
    }
}

// The function of the name that needs the place.
#[tactic(auto, unfolding(crate::specs::Names::placed_named), using(crate::proofs::Words::words))]
fn placed_named(name: &Text) -> Option<Strict>
    ensures { result ≡ placed_named name.now }
{
    if name.equals_ignore_case("resourceId") {
        Some(Strict::ResourceId)
    } else if name.equals_ignore_case("subscriptionResourceId") {
        Some(Strict::SubscriptionResourceId)
    } else if name.equals_ignore_case("resourceGroup") {
        Some(Strict::ResourceGroup)
    } else if name.equals_ignore_case("subscription") {
        Some(Strict::Subscription)
    } else if name.equals_ignore_case("deployment") {
        Some(Strict::Deployment)
    } else {
        None
    }
}

/// The function of the name that needs an environment.
#[tactic(auto, unfolding(crate::specs::Names::strict_named), using(crate::proofs::Words::words))]
pub fn strict_named(name: &Text) -> Option<Strict>
    ensures { result ≡ strict_named name.now }
{
    if name.equals_ignore_case("parameters") {
        Some(Strict::Parameters)
    } else if name.equals_ignore_case("variables") {
        Some(Strict::Variables)
    } else if name.equals_ignore_case("reference") {
        Some(Strict::Reference)
    } else if name.equals_ignore_case("copyIndex") {
        Some(Strict::CopyIndex)
    } else {
        placed_named(name)
    }
}
