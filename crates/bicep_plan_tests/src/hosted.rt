// Sites, machines and queues.

use crate::asking::check;
use bicep_files::hosts::{CLUSTER, CONTAINERS, FUNCTIONS, MACHINE, QUEUES, SITE};
use std::test::Fail;

// The plan, the site on it, its settings, and its logs after the settings.
const SITE_FACTS: &str = "
> tasks enter / enter /0.0/ put /0.0/0.0 put /0.0/1.0 put /0.0/2.0 put /0.0/3.0 leave /0.0/ leave /
> put /0.0/1.0 needs put /0.0/0.0
> put /0.0/2.0 needs put /0.0/1.0
> put /0.0/3.0 needs put /0.0/1.0
> put /0.0/3.0 needs put /0.0/2.0
> no put /0.0/2.0 needs put /0.0/0.0
";

#[test]
fn a_site_on_its_plan(rt: HostRuntime) -> Result<(), Fail> {
    check(rt.alloc(), SITE, "appName: 'shop'", SITE_FACTS)
}

// Two queues; a topic with two readers, and a filter of the first that waits for both.
const QUEUES_FACTS: &str = "
> tasks enter / enter /0.0/ put /0.0/0.0 put /0.0/1.0 put /0.0/1.1 put /0.0/2.0 put /0.0/3.0 put /0.0/3.1 put \
    /0.0/4.0 put /0.0/5.0 leave /0.0/ leave /
> put /0.0/1.0 needs put /0.0/0.0
> put /0.0/1.1 needs put /0.0/0.0
> put /0.0/2.0 needs put /0.0/0.0
> put /0.0/3.0 needs put /0.0/2.0
> put /0.0/3.1 needs put /0.0/2.0
> put /0.0/4.0 needs put /0.0/0.0
> put /0.0/5.0 needs put /0.0/3.0
> put /0.0/5.0 needs put /0.0/3.1
> no put /0.0/3.0 needs put /0.0/0.0
> no put /0.0/5.0 needs put /0.0/2.0
";

#[test]
fn queues_topics_and_readers(rt: HostRuntime) -> Result<(), Fail> {
    check(rt.alloc(), QUEUES, "namespaceName: 'bus'", QUEUES_FACTS)
}

// The settings of the app read the insights. The slot is there since the arguments name it.
const FUNCTIONS_FACTS: &str = "
> tasks enter / enter /0.0/ put /0.0/0.0 put /0.0/1.0 put /0.0/2.0 leave /0.0/ leave /
> put /0.0/1.0 needs put /0.0/0.0
> put /0.0/2.0 needs put /0.0/1.0
> no put /0.0/2.0 needs put /0.0/0.0
> name /0.0/2.0 \"fn/next\"
> variable /0.0/ more [{\"name\":\"SLOT\",\"value\":\"next\"}]
";

#[test]
fn functions_and_a_slot(rt: HostRuntime) -> Result<(), Fail> {
    check(
        rt.alloc(),
        FUNCTIONS,
        "name: 'fn'\nstorageName: 'stfn'\nextra: { slot: 'next' }\naccountKey: 'it is secret'",
        FUNCTIONS_FACTS,
    )
}

const CONTAINERS_FACTS: &str = "
> tasks enter / enter /0.0/ put /0.0/0.0 put /0.0/1.0 leave /0.0/ leave /
> put /0.0/1.0 needs put /0.0/0.0
> variable /0.0/ registry \"images.example.com\"
";

#[test]
fn a_container_and_its_identity(rt: HostRuntime) -> Result<(), Fail> {
    check(
        rt.alloc(),
        CONTAINERS,
        "environmentId: 'here'\nimage: 'images.example.com/orders:1'",
        CONTAINERS_FACTS,
    )
}

const MACHINE_FACTS: &str = "
> tasks enter / enter /0.0/ put /0.0/0.0 put /0.0/1.0 put /0.0/2.0 leave /0.0/ leave /
> put /0.0/1.0 needs put /0.0/0.0
> put /0.0/2.0 needs put /0.0/1.0
> no put /0.0/2.0 needs put /0.0/0.0
> name /0.0/2.0 \"vm-jump/setup\"
";

#[test]
fn a_machine_and_its_script(rt: HostRuntime) -> Result<(), Fail> {
    check(
        rt.alloc(),
        MACHINE,
        "adminName: 'ops'\npublicKey: 'it is public'\nsubnetId: 'here'",
        MACHINE_FACTS,
    )
}

const CLUSTER_FACTS: &str = "
> tasks enter / enter /0.0/ put /0.0/0.0 put /0.0/1.0 leave /0.0/ leave /
> put /0.0/1.0 needs put /0.0/0.0
> name /0.0/1.0 \"shop/default\"
";

#[test]
fn a_cluster_and_its_quiet_hours(rt: HostRuntime) -> Result<(), Fail> {
    check(rt.alloc(), CLUSTER, "clusterName: 'shop'", CLUSTER_FACTS)
}
