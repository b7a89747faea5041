// What is a parent, and what a scope covers.

use crate::answers::Question;
use crate::table::{check, letting_go, say_truth, two};
use arm_ids::{IdFault, Key, Scope};
use std::alloc::{AllocError, Global};
use std::test::Fail;

type KeyRead = Result<Key, IdFault>;

fn say_above(out: &mut String, key: &KeyRead, child: &KeyRead) -> Result<(), AllocError> {
    match (key, child) {
        (Ok(key), Ok(child)) => say_truth(out, key.is_parent(child)),
        _ => out.push_str("no key"),
    }
}

/// Adds whether the first id is that of a parent of the second's resource.
pub fn say_parent(out: &mut String, alloc: Global, asked: &str) -> Result<(), AllocError> {
    let (id, child) = two(asked);
    let (key, child) = (Key::read_id(alloc, id), Key::read_id(alloc, child));
    letting_go(say_above(out, &key, &child), (key, child))
}

const PARENTS: &str = "\
/subscriptions/S/resourceGroups/G/providers/N/t/n \
/subscriptions/s/resourceGroups/g/providers/N/T/n/u/m -> true
/subscriptions/S/resourceGroups/G/providers/N/t/n \
/subscriptions/s/resourceGroups/g/providers/N/t/n/u/m/v/k -> false
/subscriptions/s/resourceGroups/g/providers/N/T/n/u/m \
/subscriptions/S/resourceGroups/G/providers/N/t/n -> false";

#[test]
fn a_parent_has_one_name_less(rt: HostRuntime) -> Result<(), Fail> {
    check(rt.alloc(), Question::Parent, PARENTS)
}

fn say_within(
    out: &mut String,
    scope: &Result<Scope, IdFault>,
    key: &KeyRead,
) -> Result<(), AllocError> {
    match (scope, key) {
        (Ok(scope), Ok(key)) => say_truth(out, scope.begins(key)),
        _ => out.push_str("no scope"),
    }
}

/// Adds whether the scope of the first id covers the second's resource.
pub fn say_begins(out: &mut String, alloc: Global, asked: &str) -> Result<(), AllocError> {
    let (id, other) = two(asked);
    let (scope, key) = (Scope::read_id(alloc, id), Key::read_id(alloc, other));
    letting_go(say_within(out, &scope, &key), (scope, key))
}

const RESOURCES: &str = "\
/subscriptions/S/resourceGroups/G/providers/N/t/n \
/subscriptions/s/resourceGroups/g/providers/N/t/n/u/m/v/k -> true
/subscriptions/s/resourceGroups/g/providers/N/T/n/u/m \
/subscriptions/S/resourceGroups/G/providers/N/t/n -> false";

#[test]
fn a_resource_covers_those_within_it(rt: HostRuntime) -> Result<(), Fail> {
    check(rt.alloc(), Question::Begins, RESOURCES)
}

const GROUPS: &str = "\
/subscriptions/S/resourceGroups/G /subscriptions/s/resourceGroups/g/providers/N/T/n/u/m -> true
/subscriptions/S/resourceGroups/H /subscriptions/s/resourceGroups/g/providers/N/T/n/u/m -> false";

#[test]
fn a_group_covers_its_resources_whatever_the_case(rt: HostRuntime) -> Result<(), Fail> {
    check(rt.alloc(), Question::Begins, GROUPS)
}
