// Networks and names.

use crate::asking::{check, check_second};
use bicep_files::networks::{BALANCER, ENDPOINTS, NETWORK, PEERINGS, RECORDS, RULES};
use std::test::Fail;

// A security group for each of the two subnets that are the default.
const NETWORK_FACTS: &str = "
> tasks enter / enter /0.0/ put /0.0/0.0 put /0.0/0.1 put /0.0/1.0 leave /0.0/ leave /
> put /0.0/1.0 needs put /0.0/0.0
> put /0.0/1.0 needs put /0.0/0.1
> no put /0.0/0.1 needs put /0.0/0.0
";

#[test]
fn a_network_and_its_groups(rt: HostRuntime) -> Result<(), Fail> {
    check(rt.alloc(), NETWORK, "", NETWORK_FACTS)
}

// The second network is not peered. Each module waits for all peerings.
const PEERINGS_FACTS: &str = "
> tasks enter / enter /0.0/ put /0.0/0.0 put /0.0/0.2 enter /0.0/1.0/ leave /0.0/1.0/ enter /0.0/1.2/ leave \
    /0.0/1.2/ leave /0.0/ leave /
> enter /0.0/1.0/ needs put /0.0/0.0
> enter /0.0/1.0/ needs put /0.0/0.2
> enter /0.0/1.2/ needs put /0.0/0.0
> leave /0.0/ needs leave /0.0/1.2/
> no enter /0.0/1.2/ needs leave /0.0/1.0/
";

#[test]
fn peerings_to_and_fro(rt: HostRuntime) -> Result<(), Fail> {
    check(
        rt.alloc(),
        PEERINGS,
        "hubName: 'hub'\nspokes: [\n  { name: 'one', isPeered: true }\n  { name: 'two', isPeered: false }\n  \
         { name: 'three', isPeered: true, group: 'other' }\n]",
        PEERINGS_FACTS,
    )
}

// The zone `test` is left out.
const RECORDS_FACTS: &str = "
> tasks enter / enter /0.0/ put /0.0/0.0 put /0.0/1.0 put /0.0/1.1 put /0.0/2.0 put /0.0/3.0 put /0.0/4.0 \
    leave /0.0/ leave /
> put /0.0/2.0 needs put /0.0/0.0
> put /0.0/3.0 needs put /0.0/0.0
> put /0.0/4.0 needs put /0.0/0.0
> no put /0.0/1.0 needs put /0.0/0.0
> no put /0.0/3.0 needs put /0.0/2.0
";

#[test]
fn zones_and_their_records(rt: HostRuntime) -> Result<(), Fail> {
    check(
        rt.alloc(),
        RECORDS,
        "domain: 'example.com'\nwebAddress: '192.0.2.7'",
        RECORDS_FACTS,
    )
}

// The modules come first, then the two resources that are there, and then the peerings.
const SECOND_PEERINGS_FACTS: &str = "
> tasks enter / enter /0.0/ enter /0.0/0.0/ leave /0.0/0.0/ enter /0.0/0.2/ leave /0.0/0.2/ put /0.0/3.0 \
    put /0.0/3.2 leave /0.0/ leave /
> enter /0.0/0.0/ needs put /0.0/3.0
> enter /0.0/0.0/ needs put /0.0/3.2
> enter /0.0/0.2/ needs put /0.0/3.0
> leave /0.0/ needs leave /0.0/0.2/
> no enter /0.0/0.2/ needs leave /0.0/0.0/
> name /0.0/3.2 \"hub/to-three\"
";

#[test]
fn the_same_peerings_in_the_second_form(rt: HostRuntime) -> Result<(), Fail> {
    check_second(
        rt.alloc(),
        PEERINGS,
        "hubName: 'hub'\nspokes: [\n  { name: 'one', isPeered: true }\n  { name: 'two', isPeered: false }\n  \
         { name: 'three', isPeered: true, group: 'other' }\n]",
        SECOND_PEERINGS_FACTS,
    )
}

// The balancer has the id of its address.
const BALANCER_FACTS: &str = "
> tasks enter / enter /0.0/ put /0.0/0.0 put /0.0/1.0 leave /0.0/ leave /
> put /0.0/1.0 needs put /0.0/0.0
> name /0.0/0.0 \"lb-web-pip\"
";

#[test]
fn a_balancer_and_its_address(rt: HostRuntime) -> Result<(), Fail> {
    check(rt.alloc(), BALANCER, "", BALANCER_FACTS)
}

// Two zones, two links, two endpoints, and a group for each. What is in a loop waits for all zones.
const ENDPOINTS_FACTS: &str = "
> tasks enter / enter /0.0/ put /0.0/0.0 put /0.0/0.1 put /0.0/1.0 put /0.0/1.1 put /0.0/2.0 put /0.0/2.1 \
    put /0.0/3.0 put /0.0/3.1 leave /0.0/ leave /
> put /0.0/1.0 needs put /0.0/0.0
> put /0.0/1.0 needs put /0.0/0.1
> put /0.0/3.1 needs put /0.0/0.0
> put /0.0/3.1 needs put /0.0/0.1
> put /0.0/3.1 needs put /0.0/2.0
> put /0.0/3.1 needs put /0.0/2.1
> no put /0.0/2.0 needs put /0.0/0.0
> no put /0.0/3.0 needs put /0.0/1.0
> name /0.0/1.1 \"privatelink.file.core.windows.net/to-net\"
> name /0.0/2.0 \"stshop-blob\"
> name /0.0/3.1 \"stshop-file/default\"
";

#[test]
fn endpoints_and_their_zones(rt: HostRuntime) -> Result<(), Fail> {
    check(
        rt.alloc(),
        ENDPOINTS,
        "subnetId: '/subscriptions/s/resourceGroups/g/providers/Microsoft.Network/virtualNetworks/net/subnets/web'",
        ENDPOINTS_FACTS,
    )
}

const RULES_FACTS: &str = "
> tasks enter / enter /0.0/ put /0.0/0.0 put /0.0/1.0 leave /0.0/ leave /
> put /0.0/1.0 needs put /0.0/0.0
> name /0.0/1.0 \"nsg-web/deny-all\"
";

#[test]
fn rules_and_the_last_of_them(rt: HostRuntime) -> Result<(), Fail> {
    check(rt.alloc(), RULES, "", RULES_FACTS)
}

const OPEN_RULES_FACTS: &str = "
> tasks enter / enter /0.0/ put /0.0/0.0 leave /0.0/ leave /
> included /0.0/1.0 false
";

#[test]
fn rules_without_the_last(rt: HostRuntime) -> Result<(), Fail> {
    check(rt.alloc(), RULES, "isOpen: true", OPEN_RULES_FACTS)
}
