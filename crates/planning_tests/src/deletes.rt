// What is deleted in complete mode, and after what; in incremental mode nothing is.

use crate::asking::check;
use std::rt::HostRuntime;
use std::test::Fail;

const DELETES: &str = r#"{§,"resources":[{¤,"name":"x"},{¤,"name":"y","condition":false}]}
< /subscriptions/s/resourceGroups/g/providers/a.b/c/X
< /subscriptions/s/resourceGroups/g/providers/a.b/c/y
< /subscriptions/S/resourceGroups/G/providers/a.b/c/old
< /subscriptions/s/resourceGroups/g/providers/a.b/c/old/d/k
< /subscriptions/s/resourceGroups/g/providers/a.b/c/old/d/k/e/l
< /subscriptions/s/resourceGroups/h/providers/a.b/c/other
< /subscriptions/t/resourceGroups/g/providers/a.b/c/other
> tasks enter / put /0.0 leave / delete a.b/c/old delete a.b/c/old/d/k delete a.b/c/old/d/k/e/l delete a.b/c/y
> delete a.b/c/old needs delete a.b/c/old/d/k
> delete a.b/c/old/d/k needs delete a.b/c/old/d/k/e/l
> delete a.b/c/old/d/k/e/l needs leave /
> delete a.b/c/y needs leave /
> no delete a.b/c/old needs delete a.b/c/old/d/k/e/l
> no delete a.b/c/old/d/k needs delete a.b/c/old
> no delete a.b/c/y needs put /0.0
> no leave / needs delete a.b/c/y

{§,"resources":[{¤,"name":"x"},{¤,"name":"y","condition":false}]}
incremental
< /subscriptions/s/resourceGroups/g/providers/a.b/c/y
< /subscriptions/s/resourceGroups/g/providers/a.b/c/old
> tasks enter / put /0.0 leave /

{§,"resources":[]}
> tasks enter / leave /
"#;

#[test]
fn deletes(rt: HostRuntime) -> Result<(), Fail> {
    check(rt.alloc(), DELETES)
}
