// Names that may not be where they are.
ghost use Rattle.std.specs.Prelude.{◌≡◌, map, chars};
ghost use Rattle.arm_expr.specs.Brackets.{is_bracketed};
ghost use Rattle.bicep_misplaced.specs.Words as spec;
ghost use Rattle.arm_value.specs.Look.{is_among};

use crate::spot::{Owner, Spot};
use arm_expr::is_bracketed;
use arm_value::{Text, folded_eq};
use bicep_tree::is_word;

// `copy`, which makes a loop in a template.
const COPYING: [&str; 1] = ["copy"];

// The fields of a resource that a template has beside its body.
const TAKEN: [&str; 10] = [
    "scope",
    "type",
    "apiVersion",
    "condition",
    "resources",
    "comments",
    "metadata",
    "subscriptionId",
    "resourceGroup",
    "existing",
];

// The fields of a resource that are no part of its body.
const OWN: [&str; 3] = ["name", "parent", "dependsOn"];

// Whether the name is one of these, whatever the case of its ASCII letters.
fn is_among(name: &str, names: &[&str]) -> bool
    ensures { result ≡ is_among (map (λ n. chars n.now) names.now) (chars name.now) }
{
    for other in names {
        if folded_eq(name, other) {
            return true;
        }
    }
    false
}

fn is_copying(name: &str) -> bool
    ensures { result ≡ spec.is_copy (chars name.now) }
{
    is_among(name, &COPYING)
}

fn is_taken(name: &str) -> bool
    ensures { result ≡ is_among spec.taken (chars name.now) }
{
    is_among(name, &TAKEN)
}

fn is_of_resource(name: &str) -> bool
    ensures { result ≡ is_among spec.own (chars name.now) }
{
    is_among(name, &OWN)
}

/// Whether the name is `copy`, whatever the case of its letters.
pub(crate) fn is_copy(name: &Text) -> bool
    ensures { result ≡ spec.is_copy name.now }
{
    is_copying(name.as_str())
}

// Whether the text begins with `[` and ends with `]`.
fn is_in_brackets(name: &Text) -> bool
    ensures { result ≡ is_bracketed name.now }
{
    is_bracketed(name.as_str())
}

/// Whether a property may not have the name at the spot.
pub(crate) fn is_bad_name(spot: Spot, name: &Text) -> bool
    ensures { result ≡ spec.is_bad_name spot name.now }
{
    match spot {
        Spot::Outside => is_in_brackets(name),
        Spot::Field => is_in_brackets(name) || is_copy(name),
        Spot::Inside => is_in_brackets(name) || is_copy(name),
    }
}

// Whether the field is no part of a body, letter by letter.
fn is_own(owner: Owner, name: &str) -> bool
    ensures { result ≡ spec.is_own owner (chars name.now) }
{
    match owner {
        Owner::Resource => {
            is_word(name, "name") || is_word(name, "parent") || is_word(name, "dependsOn")
        }
        Owner::Nested => is_word(name, "name") || is_word(name, "dependsOn"),
        Owner::Module => {
            is_word(name, "name") || is_word(name, "params") || is_word(name, "dependsOn")
        }
    }
}

// Whether a resource may not have the field.
fn is_bad_of_resource(owner: Owner, name: &str) -> bool
    ensures { result ≡ spec.is_bad_of_resource owner (chars name.now) }
{
    is_taken(name) || (is_of_resource(name) && !is_own(owner, name))
}

/// Whether a resource or a module may not have the field.
pub(crate) fn is_bad_field(owner: Owner, name: &Text) -> bool
    ensures { result ≡ spec.is_bad_field owner name.now }
{
    match owner {
        Owner::Resource => is_bad_of_resource(Owner::Resource, name.as_str()),
        Owner::Nested => is_bad_of_resource(Owner::Nested, name.as_str()),
        Owner::Module => !is_own(Owner::Module, name.as_str()),
    }
}
