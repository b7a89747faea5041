// Codes and messages.

use crate::made::{compare, letting_go, lock, texts};
use arm_value::{Path, Text};
use lock_rules::{Cause, Level, Tasks};
use std::alloc::Global;
use std::test::Fail;
use template_parts::BindFault;

// A lock K on a scope.
fn locked(alloc: Global, scope: &str) -> Result<Cause, Fail> {
    Ok(Cause::Locked(lock(alloc, scope, "K", Level::ReadOnly)?))
}

// The text at a member has no value.
fn no_value(alloc: Global, member: &str) -> Result<Cause, Fail> {
    let path = Path::root(alloc).member(alloc, member)?;
    Ok(Cause::NoValue(path))
}

// A parameter has a value of another type.
fn unsuited(alloc: Global, name: &str) -> Result<Cause, Fail> {
    let name = Text::of(alloc, name)?;
    let fault = BindFault::WrongType(name);
    Ok(Cause::Parameter(Path::root(alloc), fault))
}

// The provider refused by a code.
fn refused(alloc: Global, code: &str) -> Result<Cause, Fail> {
    Ok(Cause::Refused(Text::of(alloc, code)?))
}

// Two tasks need each other.
fn circular(alloc: Global) -> Result<Cause, Fail> {
    let tasks = Vec::from_slice(alloc, &[0, 1])?;
    Ok(Cause::Circular(Tasks::from_vec(tasks)))
}

// The cause of this kind, with what it says.
fn cause(alloc: Global, kind: &str, text: &str) -> Result<Cause, Fail> {
    if kind == "locked" {
        return locked(alloc, text);
    }
    if kind == "no-value" {
        return no_value(alloc, text);
    }
    if kind == "unsuited" {
        return unsuited(alloc, text);
    }
    if kind == "refused" {
        return refused(alloc, text);
    }
    circular(alloc)
}

// Compares the code and the message of a cause of the tasks of these names.
fn check(alloc: Global, cause: &Cause, names: &[Text], wanted: &str) -> Result<(), Fail> {
    let code = cause.code();
    let message = cause.message(alloc, names)?;
    let found = format!(in alloc; "{code}: {message}")?;
    compare("cause", found.as_str(), wanted)
}

// A cause, and a copy of it.
fn check_both(alloc: Global, cause: &Cause, names: &[Text], wanted: &str) -> Result<(), Fail> {
    check(alloc, cause, names, wanted)?;
    check_copy(alloc, cause, names, wanted)
}

fn check_copy(alloc: Global, cause: &Cause, names: &[Text], wanted: &str) -> Result<(), Fail> {
    let copy = cause.copy(alloc)?;
    letting_go(check(alloc, &copy, names, wanted), copy)
}

fn check_given(alloc: Global, given: &str, names: &[Text], wanted: &str) -> Result<(), Fail> {
    let (kind, text) = given.split_once(' ').unwrap_or((given, ""));
    let cause = cause(alloc, kind, text)?;
    letting_go(check_both(alloc, &cause, names, wanted), cause)
}

fn check_line(alloc: Global, line: &str) -> Result<(), Fail> {
    let (given, wanted) = line.split_once(" -> ").unwrap_or((line, ""));
    let (given, names) = given.split_once(" of ").unwrap_or((given, ""));
    let names = texts(alloc, names)?;
    letting_go(check_given(alloc, given, names.as_slice(), wanted), names)
}

// A cause, the names of its tasks, and after an arrow its code and its message. The id of a lock begins with that
// of its scope, which for a resource is in small letters.
const CAUSES: &str = "\
locked /SUBSCRIPTIONS/S of /a -> ScopeLocked: /a by /subscriptions/S\
/providers/Microsoft.Authorization/locks/K
locked /subscriptions/s/resourcegroups/G of /a -> ScopeLocked: /a by /subscriptions/s/resourceGroups/G\
/providers/Microsoft.Authorization/locks/K
locked /subscriptions/s/resourceGroups/g/Providers/Demo.Lab/a/B of /b -> ScopeLocked: /b by \
/subscriptions/s/resourcegroups/g/providers/demo.lab/a/b/providers/Microsoft.Authorization/locks/K
no-value name of leave / -> NoValue: leave /: /name
unsuited x of leave / -> InvalidParameter: leave /: WrongType x
refused Quota of /a -> Quota: /a
circular of /a,/b -> CircularDependency: /a /b";

#[test]
fn causes_have_codes_and_messages(rt: HostRuntime) -> Result<(), Fail> {
    for line in CAUSES.lines() {
        check_line(rt.alloc(), line)?;
    }
    Ok(())
}
