// What the members of a resource are for, and the segments of types and names.

use crate::answers::Question;
use crate::table::{check, say_truth};
use arm_ids::{
    has_empty_segment, is_declaration_member, is_deployment_type, is_refused_member, segments,
};
use arm_value::Text;
use std::alloc::{AllocError, Global};
use std::test::Fail;

const MEMBERS: &str = "\
type -> declares the resource
APIVERSION -> declares the resource
dependson -> declares the resource
Metadata -> declares the resource
scope -> is refused
resourcegroup -> is refused
subscriptionId -> is refused
location -> is in the body
properties -> is in the body
types -> is in the body";

fn role(name: &Text) -> &'static str {
    if is_declaration_member(name) {
        return "declares the resource";
    }
    if is_refused_member(name) {
        return "is refused";
    }
    "is in the body"
}

/// Adds what the member of this name is for.
pub fn say_role(out: &mut String, alloc: Global, asked: &str) -> Result<(), AllocError> {
    let name = Text::of(alloc, asked)?;
    out.push_str(role(&name))
}

#[test]
fn members_declare_are_refused_or_are_in_the_body(rt: HostRuntime) -> Result<(), Fail> {
    check(rt.alloc(), Question::Role, MEMBERS)
}

/// Adds whether it is the type of nested deployments.
pub fn say_deployment(out: &mut String, alloc: Global, asked: &str) -> Result<(), AllocError> {
    let kind = Text::of(alloc, asked)?;
    say_truth(out, is_deployment_type(&kind))
}

const DEPLOYMENTS: &str = "\
microsoft.resources/DEPLOYMENTS -> true
Microsoft.Resources/deployments/x -> false";

#[test]
fn the_type_of_nested_deployments_has_letters_of_any_case(rt: HostRuntime) -> Result<(), Fail> {
    check(rt.alloc(), Question::Deployment, DEPLOYMENTS)
}

/// Adds how many segments it has, and whether one is empty.
pub fn say_segments(out: &mut String, alloc: Global, asked: &str) -> Result<(), AllocError> {
    let found = segments(alloc, asked)?;
    write!(out, "{} ", found.len())?;
    say_truth(out, has_empty_segment(found.as_slice()))
}

const SEGMENTS: &str = "A/b/c -> 3 false
A//c -> 3 true
 -> 1 true";

#[test]
fn a_text_has_one_segment_more_than_slashes(rt: HostRuntime) -> Result<(), Fail> {
    check(rt.alloc(), Question::Segments, SEGMENTS)
}
