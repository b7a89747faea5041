// Storage, databases and servers.

use crate::asking::{check, check_second};
use bicep_files::stored::{COSMOS, LOGS, REGISTRY, SQL, STORAGE, VAULT};
use std::test::Fail;

// A container for each of the two names that are the default.
const STORAGE_FACTS: &str = "
> tasks enter / enter /0.0/ put /0.0/0.0 put /0.0/1.0 put /0.0/2.0 put /0.0/2.1 leave /0.0/ leave /
> enter /0.0/ needs enter /
> put /0.0/0.0 needs enter /0.0/
> put /0.0/1.0 needs put /0.0/0.0
> put /0.0/2.0 needs put /0.0/1.0
> put /0.0/2.1 needs put /0.0/1.0
> leave /0.0/ needs put /0.0/2.1
> leave / needs leave /0.0/
> no put /0.0/2.1 needs put /0.0/2.0
> no put /0.0/2.0 needs put /0.0/0.0
";

#[test]
fn an_account_and_its_containers(rt: HostRuntime) -> Result<(), Fail> {
    check(rt.alloc(), STORAGE, "prefix: 'logs'", STORAGE_FACTS)
}

// Three databases in batches of two, and a container that waits for all of them.
const COSMOS_FACTS: &str = "
> tasks enter / enter /0.0/ put /0.0/0.0 put /0.0/1.0 put /0.0/1.1 put /0.0/1.2 put /0.0/2.0 leave /0.0/ leave /
> put /0.0/1.0 needs put /0.0/0.0
> put /0.0/1.2 needs put /0.0/0.0
> put /0.0/1.2 needs put /0.0/1.0
> put /0.0/1.2 needs put /0.0/1.1
> put /0.0/2.0 needs put /0.0/1.0
> put /0.0/2.0 needs put /0.0/1.1
> put /0.0/2.0 needs put /0.0/1.2
> no put /0.0/1.1 needs put /0.0/1.0
> no put /0.0/2.0 needs put /0.0/0.0
";

#[test]
fn databases_in_batches(rt: HostRuntime) -> Result<(), Fail> {
    check(
        rt.alloc(),
        COSMOS,
        "accountName: 'Shop'\ndbs: [ { name: 'a' }, { name: 'b', throughput: 800 }, { name: 'c' } ]",
        COSMOS_FACTS,
    )
}

// One of the two addresses is empty, and its rule is left out.
const SQL_FACTS: &str = "
> tasks enter / enter /0.0/ put /0.0/0.0 put /0.0/1.0 put /0.0/2.0 put /0.0/3.0 leave /0.0/ leave /
> put /0.0/1.0 needs put /0.0/0.0
> put /0.0/2.0 needs put /0.0/0.0
> put /0.0/3.0 needs put /0.0/0.0
> no put /0.0/2.0 needs put /0.0/1.0
> no put /0.0/3.0 needs put /0.0/2.0
";

#[test]
fn a_server_with_its_rules_and_its_database(rt: HostRuntime) -> Result<(), Fail> {
    check(
        rt.alloc(),
        SQL,
        "login: 'ops'\npassword: 'it is secret'\nofficeAddresses: [ '192.0.2.7', '' ]",
        SQL_FACTS,
    )
}

// A vault, and a secret in it.
const VAULT_FACTS: &str = "
> tasks enter / enter /0.0/ put /0.0/0.0 put /0.0/1.0 leave /0.0/ leave /
> put /0.0/1.0 needs put /0.0/0.0
> leave /0.0/ needs put /0.0/1.0
";

#[test]
fn a_vault_and_a_secret(rt: HostRuntime) -> Result<(), Fail> {
    check(
        rt.alloc(),
        VAULT,
        "name: 'kv'\ntenantId: 'us'\nreaders: [ 'one' ]\nconnection: 'it is secret'",
        VAULT_FACTS,
    )
}

// Two packs and the diagnostics of a site read the workspace.
const LOGS_FACTS: &str = "
> tasks enter / enter /0.0/ put /0.0/0.0 put /0.0/1.0 put /0.0/1.1 put /0.0/2.0 leave /0.0/ leave /
> put /0.0/1.0 needs put /0.0/0.0
> put /0.0/1.1 needs put /0.0/0.0
> put /0.0/2.0 needs put /0.0/0.0
> no put /0.0/1.1 needs put /0.0/1.0
> no put /0.0/2.0 needs put /0.0/1.0
> name /0.0/1.1 \"VMInsights(logs)\"
> name /0.0/2.0 \"shop/Microsoft.Insights/to-workspace\"
";

#[test]
fn a_workspace_and_what_is_sent_to_it(rt: HostRuntime) -> Result<(), Fail> {
    check(rt.alloc(), LOGS, "workspaceName: 'logs'", LOGS_FACTS)
}

// The diagnostics come first, then the packs, the site that is there, and the workspace.
const SECOND_LOGS_FACTS: &str = "
> tasks enter / enter /0.0/ put /0.0/0.0 put /0.0/1.0 put /0.0/1.1 put /0.0/3.0 leave /0.0/ leave /
> put /0.0/0.0 needs put /0.0/3.0
> put /0.0/1.0 needs put /0.0/3.0
> put /0.0/1.1 needs put /0.0/3.0
> no put /0.0/1.1 needs put /0.0/1.0
> no put /0.0/1.0 needs put /0.0/0.0
> name /0.0/1.1 \"VMInsights(logs)\"
> name /0.0/0.0 \"shop/Microsoft.Insights/to-workspace\"
";

#[test]
fn the_same_workspace_in_the_second_form(rt: HostRuntime) -> Result<(), Fail> {
    check_second(rt.alloc(), LOGS, "workspaceName: 'logs'", SECOND_LOGS_FACTS)
}

// There is no copy for `global`.
const REGISTRY_FACTS: &str = "
> tasks enter / enter /0.0/ put /0.0/0.0 put /0.0/1.0 put /0.0/2.0 put /0.0/2.1 leave /0.0/ leave /
> put /0.0/1.0 needs put /0.0/0.0
> put /0.0/2.0 needs put /0.0/0.0
> put /0.0/2.1 needs put /0.0/0.0
> no put /0.0/2.0 needs put /0.0/1.0
> name /0.0/0.0 \"images\"
> name /0.0/1.0 \"images/westeurope\"
";

#[test]
fn a_registry_with_copies(rt: HostRuntime) -> Result<(), Fail> {
    check(
        rt.alloc(),
        REGISTRY,
        "name: 'im-ages'\nreplicas: [ 'westeurope', 'global' ]\n\
         pullers: [ { id: 'one' }, { id: 'two', kind: 'User' } ]",
        REGISTRY_FACTS,
    )
}

// The rules come first, then the server, and then its database.
const SECOND_SQL_FACTS: &str = "
> tasks enter / enter /0.0/ put /0.0/0.0 put /0.0/1.0 put /0.0/2.0 put /0.0/3.0 leave /0.0/ leave /
> put /0.0/0.0 needs put /0.0/2.0
> put /0.0/1.0 needs put /0.0/2.0
> put /0.0/3.0 needs put /0.0/2.0
> no put /0.0/1.0 needs put /0.0/0.0
> no put /0.0/3.0 needs put /0.0/1.0
> included /0.0/1.1 false
";

#[test]
fn the_same_server_in_the_second_form(rt: HostRuntime) -> Result<(), Fail> {
    check_second(
        rt.alloc(),
        SQL,
        "login: 'ops'\npassword: 'it is secret'\nofficeAddresses: [ '192.0.2.7', '' ]",
        SECOND_SQL_FACTS,
    )
}
