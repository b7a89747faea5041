// Deployments that succeed.

use crate::rows::check;
use std::rt::HostRuntime;
use std::test::Fail;

// States and outputs are read once they are there.
const READS: &str = r#"{§,"resources":[{¤,"name":"one","properties":{"x":1}},
{¤,"name":"two","properties":{"y":"[reference(resourceId('a.b/c','one')).x]"}}],
"outputs":{"z":{"type":"int","value":"[reference(resourceId('a.b/c','two')).y]"},"q":{"type":"string","value":"t"}}}
> begin 1 0 @/a.b/c/one {"properties":{"x":1}}
> stored 1
> begin 2 0 @/a.b/c/two {"properties":{"y":1}}
> stored 2
> Succeeded first
> q="t"
> z=1

{§,"resources":[{¤,"name":"one","properties":{"x":1}},
{¶,"name":"inner","properties":{«,"parameters":{"p":{"value":"[reference(resourceId('a.b/c','one')).x]"}},
"template":{§,"parameters":{"p":{"type":"int"}},"variables":{"v":"[add(parameters('p'), 1)]"},
"resources":[{¤,"name":"two","properties":{"y":"[variables('v')]"}}],
"outputs":{"o":{"type":"int","value":"[add(reference(resourceId('a.b/c','two')).y, 1)]"}}}}}],
"outputs":{"z":{"type":"int","value":"[reference('inner').outputs.o.value]"}}}
> begin 1 0 @/a.b/c/one {"properties":{"x":1}}
> stored 1
> begin 3 0 @/a.b/c/two {"properties":{"y":2}}
> stored 3
> Succeeded first
> z=3

{§,"parameters":{"use":{"type":"bool","defaultValue":false}},"resources":[{¤,"name":"st","properties":{}}],
"outputs":{"o":{"type":"string",
"value":"[if(parameters('use'), reference(resourceId('a.b/c','st')).no.deep, 'none')]"}}}
> begin 1 0 @/a.b/c/st {"properties":{}}
> stored 1
> Succeeded first
> o="none"

{§,"resources":[{¶,"name":"m","properties":{«,"template":{§,"resources":[{¤,"name":"a","properties":{"x":1}}],
"outputs":{"x":{"type":"int","value":"[reference(resourceId('a.b/c','a')).x]"}}}}},
{¶,"name":"n","properties":{»,"template":{§,"resources":[
{¤,"name":"b","properties":{"y":"[reference('m').outputs.x.value]"}}]}}}]}
> begin 2 0 @/a.b/c/a {"properties":{"x":1}}
> stored 2
> begin 5 0 @/a.b/c/b {"properties":{"y":1}}
> stored 5
> Succeeded first

{§,"resources":[{¤,"name":"one","kind":"k","properties":{"x":1}},
{¶,"name":"m","properties":{«,"template":{§,"resources":[
{¤,"name":"b","properties":{"y":"[reference(resourceId('a.b/c','one'), '1', 'Full').kind]"}}]}}}]}
> begin 1 0 @/a.b/c/one {"kind":"k","properties":{"x":1}}
> stored 1
> begin 3 0 @/a.b/c/b {"properties":{"y":"k"}}
> stored 3
> Succeeded first

{§,"languageVersion":"2.0","resources":{"s":{¤,"name":"[format('a{0}', copyIndex())]","copy":{"name":"l","count":2},
"properties":{"i":"[copyIndex()]"}}},"outputs":{"o":{"type":"int","value":"[reference('s[1]').i]"}}}
> begin 1 0 @/a.b/c/a0 {"properties":{"i":0}}
> begin 2 1 @/a.b/c/a1 {"properties":{"i":1}}
> stored 2
> stored 1
> Succeeded first
> o=1
"#;

// What is held is read, and deleted in complete mode.
const HELD: &str =
    r#"{§,"resources":[{¤,"name":"one","properties":{"y":"[reference(resourceId('a.b/c','old')).k]"}}]}
< /subscriptions/s/resourceGroups/g/providers/a.b/c/old {"properties":{"k":7}}
< /subscriptions/s/resourceGroups/g/providers/a.b/c/one {"properties":{"y":0}}
> begin 1 0 @/a.b/c/one {"properties":{"y":7}}
> stored 1
> begin 3 0 @/a.b/c/old null
> gone 3
> Succeeded first

{§,"resources":[]}
< /subscriptions/s/resourceGroups/g/providers/A.b/C/old
< /subscriptions/s/resourceGroups/g/providers/a.b/c/old/d/k
> begin 3 0 @/a.b/c/old/d/k null
> gone 3
> begin 2 0 @/A.b/C/old null
> gone 2
> Succeeded first

{§,"resources":[{¤,"name":"a","condition":false}]}
< /subscriptions/s/resourceGroups/g/providers/a.b/c/a
> begin 2 0 @/a.b/c/a null
> gone 2
> Succeeded first

{§,"resources":[{¤,"name":"a","condition":false}]}
incremental
< /subscriptions/s/resourceGroups/g/providers/a.b/c/a
> Succeeded first
"#;

// Instances are put side by side, in batches, and after what they depend on.
const ORDERS: &str = r#"{§,"resources":[{¤,"name":"one"},{¤,"name":"two"}]}
> begin 1 0 @/a.b/c/one {}
> begin 2 1 @/a.b/c/two {}
> stored 2
> stored 1
> Succeeded first

{§,"resources":[{¤,"name":"[format('x{0}', copyIndex())]",
"copy":{"name":"l","count":5,"mode":"serial","batchSize":2}}]}
> begin 1 0 @/a.b/c/x0 {}
> begin 2 1 @/a.b/c/x1 {}
> stored 2
> stored 1
> begin 3 0 @/a.b/c/x2 {}
> begin 4 1 @/a.b/c/x3 {}
> stored 4
> stored 3
> begin 5 0 @/a.b/c/x4 {}
> stored 5
> Succeeded first

{§,"resources":[{¶,"name":"m","properties":{«,"template":{§,"resources":[{¤,"name":"a"}]}}},
{¶,"name":"n","properties":{«,"template":{§,"resources":[{¤,"name":"b"},{¤,"name":"c","dependsOn":["b"]}]}}},
{¤,"name":"d","dependsOn":["m"]}]}
> begin 2 0 @/a.b/c/a {}
> begin 5 1 @/a.b/c/b {}
> stored 5
> begin 6 1 @/a.b/c/c {}
> stored 6
> stored 2
> begin 8 0 @/a.b/c/d {}
> stored 8
> Succeeded first
"#;

// Parameters are those of the scope, or of the one around it; a text that begins with `[[` is no expression.
const VALUES: &str = r#"{§,"parameters":{"p":{"type":"string","defaultValue":"o"}},"resources":[
{¶,"name":"m","properties":{«,"parameters":{"p":{"value":"i"}},"template":{§,"parameters":{"p":{"type":"string"}},
"resources":[],"outputs":{"x":{"type":"string","value":"[parameters('p')]"}}}}},
{¶,"name":"n","properties":{»,"template":{§,"parameters":{"p":{"type":"string","defaultValue":"i"}},
"resources":[],"outputs":{"x":{"type":"string","value":"[parameters('p')]"}}}}}],
"outputs":{"inner":{"type":"string","value":"[reference('m').outputs.x.value]"},
"outer":{"type":"string","value":"[reference('n').outputs.x.value]"}}}
> Succeeded first
> inner="i"
> outer="o"

{§,"parameters":{"n":{"type":"int","defaultValue":3}},"resources":[],"outputs":{"o":{"type":"string","value":"[[x]"},
"r":{"type":"string","value":"[format('{{a}}{0}', parameters('n'))]"}}}
> Succeeded first
> o="[x]"
> r="{a}3"

{§,"resources":[],"outputs":{"a":{"type":"string","condition":false,"value":"x"},
"b":{"type":"array","copy":{"count":2,"input":"[copyIndex()]"}},"c":{"type":"securestring","value":"x"},
"d":{"type":"bool","condition":"[equals(1, 1)]","value":true}}}
> Succeeded first
> b=[0,1]
> d=true
"#;

// Bodies have the members that are not read otherwise, and what `copy` gives; a child has the name of its parent first.
const BODIES: &str =
    r#"{§,"resources":[{¤,"name":"one","tags":{"t":"x"},"comments":"c","metadata":{},
"properties":{"copy":[{"name":"list","count":2,"input":"[copyIndex('list')]"}]}}]}
> begin 1 0 @/a.b/c/one {"properties":{"list":[0,1]},"tags":{"t":"x"}}
> stored 1
> Succeeded first

{§,"resources":[{¤,"name":"one","resources":[{"type":"d","apiVersion":"1","name":"k","properties":{"z":null}}]}]}
> begin 1 0 @/a.b/c/one {}
> begin 2 1 @/a.b/c/one/d/k {"properties":{"z":null}}
> stored 2
> stored 1
> Succeeded first

{§,"resources":[{¤,"name":"[format('x{0}', copyIndex())]","copy":{"name":"l","count":2},
"properties":{"i":"[copyIndex(1)]"}}]}
> begin 1 0 @/a.b/c/x0 {"properties":{"i":1}}
> begin 2 1 @/a.b/c/x1 {"properties":{"i":2}}
> stored 2
> stored 1
> Succeeded first
"#;

#[test]
fn bodies_have_their_values(rt: HostRuntime) -> Result<(), Fail> {
    check(rt.alloc(), BODIES)
}

#[test]
fn values_are_those_of_their_scope(rt: HostRuntime) -> Result<(), Fail> {
    check(rt.alloc(), VALUES)
}

#[test]
fn states_and_outputs_are_read(rt: HostRuntime) -> Result<(), Fail> {
    check(rt.alloc(), READS)
}

#[test]
fn what_is_held_is_read_and_deleted(rt: HostRuntime) -> Result<(), Fail> {
    check(rt.alloc(), HELD)
}

#[test]
fn puts_wait_for_no_more_than_they_need(rt: HostRuntime) -> Result<(), Fail> {
    check(rt.alloc(), ORDERS)
}
