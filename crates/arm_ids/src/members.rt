// What the members of a resource are for, and the type of nested deployments.
ghost use Rattle.std.specs.Prelude.{◌≡◌, map, chars};
ghost use Rattle.arm_ids.specs.Members.{is_among, is_declaration_member, is_refused_member};
ghost use Rattle.arm_ids.specs.Members.{is_deployment_type};

use arm_value::Text;

/// The type of a nested deployment, which is no resource of its group.
pub const DEPLOYMENT_TYPE: &str = "Microsoft.Resources/deployments";

// The members of a resource that declare it. The others are its body.
const DECLARATION_MEMBERS: [&str; 9] = [
    "type",
    "apiVersion",
    "name",
    "condition",
    "dependsOn",
    "copy",
    "resources",
    "comments",
    "metadata",
];

// The members that no resource has.
const REFUSED_MEMBERS: [&str; 3] = ["scope", "subscriptionId", "resourceGroup"];

/// Whether the name is one of these, in letters of any case.
pub fn is_among(names: &[&str], name: &Text) -> bool
    ensures { result ≡ is_among (map (λ n. chars n.now) names.now) name.now }
{
    for other in names {
        if name.equals_ignore_case(other) {
            return true;
        }
    }
    false
}

/// Whether a member of this name, in letters of any case, declares its resource and is no part of
/// its body: `type`, `apiVersion`, `name`, `condition`, `dependsOn`, `copy`, `resources`, `comments`
/// and `metadata`.
pub fn is_declaration_member(name: &Text) -> bool
    ensures { result ≡ is_declaration_member name.now }
{
    is_among(&DECLARATION_MEMBERS, name)
}

/// Whether no resource has a member of this name, in letters of any case: `scope`, `subscriptionId`
/// and `resourceGroup`.
pub fn is_refused_member(name: &Text) -> bool
    ensures { result ≡ is_refused_member name.now }
{
    is_among(&REFUSED_MEMBERS, name)
}

/// Whether the type is that of nested deployments, in letters of any case.
pub fn is_deployment_type(kind: &Text) -> bool
    ensures { result ≡ is_deployment_type kind.now }
{
    kind.equals_ignore_case(DEPLOYMENT_TYPE)
}
