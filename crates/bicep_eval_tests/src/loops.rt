// For-expressions (Microsoft Learn, "Iterative loops in Bicep"), and how deep values nest.

use crate::rows::check;
use std::rt::HostRuntime;
use std::test::Fail;

const LOOPS: &str = r#"[for x in a: x * 2] -> [2,4,6]
[for (x, i) in a: x + i] -> [1,3,5]
[for (x, i) in 'ab': i] -> [0,1]
[for x in 'ab': x] -> none
[for (x, i) in o: i] -> [0,1,2]
[for x in []: never] -> []
[for x in 1: x] -> none
[for x in never: 1] -> none
[for x in late: 1] -> waits for 5
[for x in a: late] -> waits for 5
[for x in a: never] -> none
[for x in a: x == 2 ? late : never] -> waits for 5
[for i in range(0, 3): '${i}-${i + 1}'] -> ["0-1","1-2","2-3"]
{ all: [for x in a: { v: x }] } -> {"all":[{"v":1},{"v":2},{"v":3}]}
[for x in a: { y: [for z in a: x * z] }] -> [{"y":[1,2,3]},{"y":[2,4,6]},{"y":[3,6,9]}]
[for i in range(0, 801): never] -> none
[for (x, i) in [ late, 1 ]: i] -> waits for 5"#;

#[test]
fn loops_run_over_items_members_and_characters(rt: HostRuntime) -> Result<(), Fail> {
    check(rt.alloc(), LOOPS)
}

// A value that nests 100 deep has one more around it.
const DEEP: &str = r#"empty(deep) -> false
[ deep ] -> none
{ a: deep } -> none
[for x in a: deep] -> none
length([ deep ]) -> none
first([ 1, [ deep ] ]) -> none
empty(deep ?? 1) -> false
[for x in deep: 1] -> [1]"#;

#[test]
fn values_nest_100_deep(rt: HostRuntime) -> Result<(), Fail> {
    check(rt.alloc(), DEEP)
}
