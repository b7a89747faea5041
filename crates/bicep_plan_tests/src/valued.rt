// Files of values, of which all is known at the start.

use crate::asking::check;
use bicep_files::plain::{SETTINGS, SUMS, TEXTS};
use std::test::Fail;

const SETTINGS_FACTS: &str = "
> tasks enter / enter /0.0/ leave /0.0/ leave /
> variable /0.0/ isProd false
> variable /0.0/ size \"medium\"
> variable /0.0/ plan \"B1\"
> variable /0.0/ zones \"1\"
> variable /0.0/ owner \"ops\"
> variable /0.0/ limits {\"cpu\":1,\"disks\":2,\"memory\":2048,\"window\":{\"from\":\"01:00\",\"to\":\"04:00\"}}
> variable /0.0/ label \"test/medium/mail\"
> output /0.0/ limits {\"cpu\":2,\"disks\":2,\"memory\":2048,\"window\":{\"from\":\"01:00\",\"to\":\"04:00\"}}
> output /0.0/ zones [\"1\"]
";

#[test]
fn settings_of_a_stage(rt: HostRuntime) -> Result<(), Fail> {
    check(
        rt.alloc(),
        SETTINGS,
        "stage: 'test'\noverrides: { owner: { name: 'ops' }, limits: { cpu: 2 } }",
        SETTINGS_FACTS,
    )
}

// `lines` has 15 characters.
const TEXTS_FACTS: &str = "
> tasks enter / enter /0.0/ leave /0.0/ leave /
> variable /0.0/ address \"https://ops@example.com:8443/\"
> variable /0.0/ deep \"abcopsd\"
> variable /0.0/ summed \"sum: 3\"
> variable /0.0/ joined \"opsexample.com\"
> variable /0.0/ quotes \"it''s\"
> variable /0.0/ checked {\"a key with spaces\":true,\"it's\":\"8443\",\"nested\":[\"15\",\"x3y-8443z\"]}
> output /0.0/ address \"https://ops@example.com:8443/\"
";

#[test]
fn texts_of_each_form(rt: HostRuntime) -> Result<(), Fail> {
    check(rt.alloc(), TEXTS, "", TEXTS_FACTS)
}

const SUMS_FACTS: &str = "
> tasks enter / enter /0.0/ leave /0.0/ leave /
> variable /0.0/ total 23
> variable /0.0/ signed -3
> variable /0.0/ isLarge false
> variable /0.0/ isBetween false
> variable /0.0/ isOdd false
> variable /0.0/ same true
> variable /0.0/ either false
> variable /0.0/ chosen {\"a\":{\"b\":[\"y\"]}}
> variable /0.0/ mixed true
> variable /0.0/ picked 3
> variable /0.0/ grouped 9
> variable /0.0/ long 32
> variable /0.0/ several true
> variable /0.0/ spread 9
> variable /0.0/ last true
> variable /0.0/ chain false
> output /0.0/ total 23
> output /0.0/ picked 3
";

#[test]
fn operators_of_each_level(rt: HostRuntime) -> Result<(), Fail> {
    check(
        rt.alloc(),
        SUMS,
        "count: 6\nnames: [ { a: { b: [ 'y' ] } } ]\noptions: { flags: { on: false } }",
        SUMS_FACTS,
    )
}
