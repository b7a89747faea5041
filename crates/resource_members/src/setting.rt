// Where a resource is, and what its type and its children make of it.

ghost use Rattle.std.specs.Prelude.{◌≡◌, map, chars, option_map};
ghost use Rattle.arm_value.specs.Json.{pairs};
ghost use Rattle.arm_value.specs.View.{json};
ghost use Rattle.resource_members.specs.Settings.{has_deployment_type, is_deployment, is_parent, setting_of};
ghost use Rattle.resource_members.specs.Settings.{is_symbolic, is_existence, is_properties, is_single};
ghost use Rattle.resource_members.specs.Settings.{resource_members};

use arm_ids::{is_declaration_member, is_deployment_type};
use arm_value::{Fields, Text, Value};
use template_members::has_item;

/// Where a resource is.
#[derive(Clone, Copy, Debug, PartialEq, Eq)]
pub enum Rank {
    /// In the array of a template in form One.
    Listed,
    /// Under another resource, in form One.
    Child,
    /// In the object of a template in form Two, which gives it a symbolic name.
    Symbolic,
}

/// A resource by its place, its type and its children.
#[derive(Clone, Copy, Debug)]
pub struct Setting {
    /// Where it is.
    pub rank: Rank,
    /// Whether it is a nested deployment.
    pub is_deployment: bool,
    /// Whether it has children.
    pub is_parent: bool,
}

// Whether a type is that of nested deployments.
fn has_deployment_type(kind: Option<&Value>) -> bool
    ensures { result ≡ has_deployment_type (option_map (λ v. json v.now) kind.entry) }
{
    match kind {
        Some(Value::Text(kind)) => is_deployment_type(kind),
        _ => false,
    }
}

// Whether a resource of this type is a nested deployment.
fn is_deployment(rank: Rank, kind: Option<&Value>) -> bool
    ensures { result ≡ is_deployment rank (option_map (λ v. json v.now) kind.entry) }
{
    match rank {
        Rank::Listed => has_deployment_type(kind),
        Rank::Child => false,
        Rank::Symbolic => has_deployment_type(kind),
    }
}

// Whether a resource with these children is a parent.
fn is_parent(rank: Rank, children: Option<&Value>) -> bool
    ensures { result ≡ is_parent rank (option_map (λ v. json v.now) children.entry) }
{
    match (rank, children) {
        (Rank::Listed, Some(children)) => has_item(children),
        (Rank::Listed, None) => false,
        (Rank::Child, _) => false,
        (Rank::Symbolic, _) => false,
    }
}

/// What a resource is by its place, its type and its children.
#[tactic(auto, using(crate::proofs::WordLemmas::words))]
pub fn setting_of(rank: Rank, fields: &Fields) -> Setting
    ensures { result ≡ setting_of rank (pairs fields.now) }
{
    Setting {
        rank,
        is_deployment: is_deployment(rank, fields.look("type")),
        is_parent: is_parent(rank, fields.look("resources")),
    }
}

/// Whether a resource there has a symbolic name.
pub fn is_symbolic(rank: Rank) -> bool
    ensures { result ≡ is_symbolic rank }
{
    match rank {
        Rank::Listed => false,
        Rank::Child => false,
        Rank::Symbolic => true,
    }
}

/// Whether the member says that the resource exists already.
#[tactic(auto, using(crate::proofs::WordLemmas::words))]
pub fn is_existence(setting: Setting, name: &Text) -> bool
    ensures { result ≡ is_existence setting name.now }
{
    is_symbolic(setting.rank) && name.equals_ignore_case("existing")
}

/// Whether the member has the template of a nested deployment.
#[tactic(auto, using(crate::proofs::WordLemmas::words))]
pub fn is_properties(setting: Setting, name: &Text) -> bool
    ensures { result ≡ is_properties setting name.now }
{
    setting.is_deployment && name.equals_ignore_case("properties")
}

/// Whether no two members have the name, in letters of any case.
pub fn is_single(setting: Setting, name: &Text) -> bool
    ensures { result ≡ is_single setting name.now }
{
    is_declaration_member(name) || is_existence(setting, name) || is_properties(setting, name)
}

/// The members that a resource must have, in byte order.
pub fn required_members(is_deployment: bool) -> &'static [&'static str]
    ensures { map (λ n. chars n.now) result.now ≡ resource_members is_deployment }
{
    if is_deployment {
        &["apiVersion", "name", "properties", "type"]
    } else {
        &["apiVersion", "name", "type"]
    }
}
