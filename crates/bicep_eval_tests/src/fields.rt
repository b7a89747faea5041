// Fields of resources, and of elements of loops (Microsoft Learn, "Resource declaration in Bicep").

use crate::rows::check;
use std::rt::HostRuntime;
use std::test::Fail;

const FIELDS: &str = r#"r.id -> "/subscriptions/s/resourceGroups/g/providers/T.N/a/x"
r.name -> "text"
r.properties -> {"p":1,"q":{"s":[2]}}
r.properties.p -> 1
r.properties.P -> 1
r.properties.q.s[0] -> 2
r.properties.z -> none
r.properties.?z -> null
r.sku.name -> "S1"
r.SKU.name -> "S1"
r.kind -> null
r.tags -> none
'${r.name}-${r.sku.name}' -> "text-S1"
toUpper(r.name) -> "TEXT"
split(r.id, '/')[8] -> "x"
empty(r.tags) -> none
[ r.tags, late ] -> waits for 5"#;

#[test]
fn fields(rt: HostRuntime) -> Result<(), Fail> {
    check(rt.alloc(), FIELDS)
}

// The sample has no types, so these are empty texts; a type reads no index.
const ELEMENTS: &str = r#"rs[0].name -> 1
rs[2].name -> 3
rs[3].name -> none
rs['a'].name -> none
rs[never].name -> none
rs[late].name -> waits for 5
rs[never].type -> ""
rs[late].apiVersion -> ""
rs[late].id == r.id -> true
rs[never].properties.p -> 1
[for i in range(0, 2): rs[i].name] -> [1,2]
[for (x, i) in a: rs[i].name == x] -> [true,true,true]
[for x in a: rs[x].name] -> none
rs[0].name + rs[1].name -> 3"#;

#[test]
fn fields_of_elements(rt: HostRuntime) -> Result<(), Fail> {
    check(rt.alloc(), ELEMENTS)
}
