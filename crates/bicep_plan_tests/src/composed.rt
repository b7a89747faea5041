// Modules of modules, and what holds for all of a deployment.

use crate::asking::check;
use bicep_files::wholes::{GUARD, MODULES, REGIONS, ROLES};
use std::test::Fail;

// Modules in a module; the profile waits for all of them.
const REGIONS_FACTS: &str = "
> tasks enter / enter /0.0/ enter /0.0/0.0/ leave /0.0/0.0/ enter /0.0/0.1/ leave /0.0/0.1/ put /0.0/1.0 \
    leave /0.0/ leave /
> enter /0.0/0.0/ needs enter /0.0/
> put /0.0/1.0 needs leave /0.0/0.0/
> put /0.0/1.0 needs leave /0.0/0.1/
> no enter /0.0/0.1/ needs leave /0.0/0.0/
";

#[test]
fn regions_and_their_profile(rt: HostRuntime) -> Result<(), Fail> {
    check(
        rt.alloc(),
        REGIONS,
        "regions: [ 'westeurope', 'northeurope' ]",
        REGIONS_FACTS,
    )
}

// The two apps are one batch. They read the database, and the database the network.
const MODULES_FACTS: &str = "
> tasks enter / enter /0.0/ enter /0.0/0.0/ leave /0.0/0.0/ enter /0.0/1.0/ leave /0.0/1.0/ enter /0.0/2.0/ \
    leave /0.0/2.0/ enter /0.0/2.1/ leave /0.0/2.1/ leave /0.0/ leave /
> enter /0.0/1.0/ needs leave /0.0/0.0/
> enter /0.0/2.0/ needs leave /0.0/1.0/
> enter /0.0/2.1/ needs leave /0.0/1.0/
> no enter /0.0/2.0/ needs leave /0.0/0.0/
> no enter /0.0/2.1/ needs leave /0.0/2.0/
> name /0.0/2.1 \"blog-prod-here\"
";

#[test]
fn modules_that_take_outputs(rt: HostRuntime) -> Result<(), Fail> {
    check(
        rt.alloc(),
        MODULES,
        "stage: 'prod'\nsuffix: 'prod-here'\nsqlPassword: 'it is very secret'",
        MODULES_FACTS,
    )
}

// There is no database.
const SMALL_MODULES_FACTS: &str = "
> tasks enter / enter /0.0/ enter /0.0/0.0/ leave /0.0/0.0/ enter /0.0/2.0/ leave /0.0/2.0/ enter /0.0/2.1/ \
    leave /0.0/2.1/ leave /0.0/ leave /
> included /0.0/1.0 false
> no enter /0.0/2.0/ needs leave /0.0/0.0/
> name /0.0/0.0 \"network-dev-westeurope\"
";

#[test]
fn modules_without_a_database(rt: HostRuntime) -> Result<(), Fail> {
    check(
        rt.alloc(),
        MODULES,
        "stage: 'dev'\nsqlPassword: 'it is very secret'",
        SMALL_MODULES_FACTS,
    )
}

// The vault is there already, and nothing reads what is put.
const ROLES_FACTS: &str = "
> tasks enter / enter /0.0/ put /0.0/0.0 put /0.0/0.1 put /0.0/1.0 put /0.0/2.0 leave /0.0/ leave /
> put /0.0/1.0 needs enter /0.0/
> no put /0.0/1.0 needs put /0.0/0.0
> no put /0.0/2.0 needs put /0.0/1.0
> name /0.0/2.0 \"kv/Microsoft.Authorization/keep-kv\"
";

#[test]
fn roles_and_a_lock(rt: HostRuntime) -> Result<(), Fail> {
    check(
        rt.alloc(),
        ROLES,
        "principals: [ 'one', 'two' ]\nvaultName: 'kv'",
        ROLES_FACTS,
    )
}

const GUARD_FACTS: &str = "
> tasks enter / enter /0.0/ put /0.0/0.0 put /0.0/0.1 put /0.0/1.0 leave /0.0/ leave /
> no put /0.0/1.0 needs put /0.0/0.0
> no put /0.0/0.1 needs put /0.0/0.0
> name /0.0/0.1 \"require-stage\"
";

#[test]
fn rules_for_tags_and_a_budget(rt: HostRuntime) -> Result<(), Fail> {
    check(
        rt.alloc(),
        GUARD,
        "contacts: [ { mail: 'Ops@example.com' } ]",
        GUARD_FACTS,
    )
}
