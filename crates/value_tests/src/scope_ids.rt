// How scopes are read and spelled, which are one, and which cover a group.

use crate::answers::Question;
use crate::table::{check, letting_go, say_truth, two};
use arm_ids::{IdFault, Scope};
use arm_value::Text;
use std::alloc::{AllocError, Global};
use std::test::Fail;

const READ: &str = "\
/subscriptions/S -> /subscriptions/S
/SUBSCRIPTIONS/S -> /subscriptions/S
/subscriptions/S/RESOURCEGROUPS/G.(1) -> /subscriptions/S/resourceGroups/G.(1)
/Subscriptions/S/ResourceGroups/G/Providers/N/T/n -> /subscriptions/s/resourcegroups/g/providers/n/t/n
 -> the text is no resource id
subscriptions/S -> the text is no resource id
/subscriptions -> the text is no resource id
/subscriptions/ -> the text is no resource id
/subscriptions/S/ -> the text is no resource id
/subscription/S -> the text is no resource id
/subscriptions/S/resourceGroups -> the text is no resource id
/subscriptions/S/resourceGroups/ -> the text is no resource id
/subscriptions//resourceGroups/G -> the text is no resource id
/subscriptions/S/resourceGroup/G -> the text is no resource id
/subscriptions/S/resourceGroups/G/ -> the text is no resource id
x/subscriptions/S/resourceGroups/G -> the text is no resource id
/subscriptions/S/resourceGroups/G/providers/N/t -> the text is no resource id";

fn say_read(
    out: &mut String,
    alloc: Global,
    scope: &Result<Scope, IdFault>,
) -> Result<(), AllocError> {
    match scope {
        Ok(scope) => out.push_str(scope.to_id(alloc)?.as_str()),
        Err(fault) => write!(out, "{fault}"),
    }
}

/// Adds the id of the scope of which it is the id, or the fault's message.
pub fn say_scope(out: &mut String, alloc: Global, asked: &str) -> Result<(), AllocError> {
    let scope = Scope::read_id(alloc, asked);
    letting_go(say_read(out, alloc, &scope), scope)
}

#[test]
fn texts_are_read_as_scopes_or_refused(rt: HostRuntime) -> Result<(), Fail> {
    check(rt.alloc(), Question::ScopeRead, READ)
}

type Read = Result<Scope, IdFault>;

fn say_both_same(out: &mut String, scope: &Read, other: &Read) -> Result<(), AllocError> {
    match (scope, other) {
        (Ok(scope), Ok(other)) => say_truth(out, scope.same(other)),
        _ => out.push_str("no scope"),
    }
}

/// Adds whether the ids are of one scope.
pub fn say_same(out: &mut String, alloc: Global, asked: &str) -> Result<(), AllocError> {
    let (id, other) = two(asked);
    let (scope, other) = (Scope::read_id(alloc, id), Scope::read_id(alloc, other));
    letting_go(say_both_same(out, &scope, &other), (scope, other))
}

const SAME: &str = "\
/subscriptions/S/resourceGroups/G /SUBSCRIPTIONS/s/ResourceGroups/g -> true
/subscriptions/S/resourceGroups/G /subscriptions/T/resourceGroups/G -> false
/subscriptions/S/resourceGroups/G /subscriptions/S -> false
/subscriptions/S /subscriptions/S/resourceGroups/G -> false
/subscriptions/S/resourceGroups/G/providers/N/t/R /subscriptions/S/resourceGroups/G -> false
/subscriptions/S/resourceGroups/G/providers/N/t/R /subscriptions/S/resourceGroups/G/providers/N/t/R -> true";

#[test]
fn scopes_are_one_whatever_the_case(rt: HostRuntime) -> Result<(), Fail> {
    check(rt.alloc(), Question::Same, SAME)
}

fn say_copied(out: &mut String, alloc: Global, scope: &Scope) -> Result<(), AllocError> {
    let copy = scope.copy(alloc)?;
    letting_go(say_truth(out, copy.same(scope)), copy)
}

fn say_read_copied(out: &mut String, alloc: Global, scope: &Read) -> Result<(), AllocError> {
    match scope {
        Ok(scope) => say_copied(out, alloc, scope),
        Err(_) => out.push_str("no scope"),
    }
}

/// Adds whether the copy of the scope is that scope.
pub fn say_copy(out: &mut String, alloc: Global, asked: &str) -> Result<(), AllocError> {
    let scope = Scope::read_id(alloc, asked);
    letting_go(say_read_copied(out, alloc, &scope), scope)
}

const COPIED: &str = "\
/subscriptions/S -> true
/subscriptions/S/resourceGroups/G -> true
/subscriptions/S/resourceGroups/G/providers/N/t/R -> true";

#[test]
fn a_scope_is_copied(rt: HostRuntime) -> Result<(), Fail> {
    check(rt.alloc(), Question::ScopeCopy, COPIED)
}

fn say_covering(
    out: &mut String,
    scope: &Read,
    subscription: &Text,
    group: &Text,
) -> Result<(), AllocError> {
    match scope {
        Ok(scope) => say_truth(out, scope.covers_group(subscription, group)),
        Err(_) => out.push_str("no scope"),
    }
}

/// Adds whether the scope covers the group `g` of the subscription `s`.
pub fn say_covers(out: &mut String, alloc: Global, asked: &str) -> Result<(), AllocError> {
    let (subscription, group) = (Text::of(alloc, "s")?, Text::of(alloc, "g")?);
    let scope = Scope::read_id(alloc, asked);
    letting_go(say_covering(out, &scope, &subscription, &group), scope)
}

const COVERS: &str = "\
/subscriptions/S -> true
/subscriptions/S/resourceGroups/G -> true
/subscriptions/T/resourceGroups/G -> false
/subscriptions/S/resourceGroups/G/providers/N/t/R -> false";

#[test]
fn a_subscription_and_a_group_cover_the_group(rt: HostRuntime) -> Result<(), Fail> {
    check(rt.alloc(), Question::Covers, COVERS)
}

fn say_inside(
    out: &mut String,
    scope: &Read,
    subscription: &Text,
    group: &Text,
) -> Result<(), AllocError> {
    match scope {
        Ok(scope) => say_truth(out, scope.is_in_group(subscription, group)),
        Err(_) => out.push_str("no scope"),
    }
}

/// Adds whether the scope is in that group.
pub fn say_is_in(out: &mut String, alloc: Global, asked: &str) -> Result<(), AllocError> {
    let (subscription, group) = (Text::of(alloc, "s")?, Text::of(alloc, "g")?);
    let scope = Scope::read_id(alloc, asked);
    letting_go(say_inside(out, &scope, &subscription, &group), scope)
}

const IS_IN: &str = "\
/subscriptions/S -> false
/subscriptions/S/resourceGroups/G -> true
/subscriptions/T/resourceGroups/G -> false
/subscriptions/S/resourceGroups/G/providers/N/t/R -> true";

#[test]
fn a_group_and_its_resources_are_in_the_group(rt: HostRuntime) -> Result<(), Fail> {
    check(rt.alloc(), Question::IsIn, IS_IN)
}
