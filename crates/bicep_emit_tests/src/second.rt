// What programs become in the second form, in which resources have the names of their symbols.

use crate::rows::check_second;
use std::test::Fail;

// Resources are in byte order of the names of their symbols, and depend on one another by these, in the order of the
// file.
const ORDER: &str = r#"resource a 'Demo.Lab/things@2024-01-01' = {
  name: 'a'
  size: 2
}
=> {¶,"resources":{"a":{"apiVersion":"2024-01-01","name":"a","size":2,"type":"Demo.Lab/things"}}}

resource ab 'Demo.Lab/things@1' = { name: 'v' }
resource a 'Demo.Lab/things@1' = { name: 'w' }
resource _b 'Demo.Lab/things@1' = { name: 'x' }
resource a1 'Demo.Lab/things@1' = { name: 'y' }
resource B 'Demo.Lab/things@1' = { name: 'z' }
=> {¶,"resources":{"B":{"apiVersion":"1","name":"z","type":"Demo.Lab/things"},
"_b":{"apiVersion":"1","name":"x","type":"Demo.Lab/things"},
"a":{"apiVersion":"1","name":"w","type":"Demo.Lab/things"},
"a1":{"apiVersion":"1","name":"y","type":"Demo.Lab/things"},
"ab":{"apiVersion":"1","name":"v","type":"Demo.Lab/things"}}}

resource b 'Demo.Lab/things@1' = {
  name: 'b'
  of: a.id
  state: Z.properties.size
}
resource a 'Demo.Lab/things@1' = {
  name: 'a'
}
resource Z 'Demo.Lab/things@1' = {
  name: 'c'
  dependsOn: [ a ]
}
=> {¶,"resources":{"Z":{"apiVersion":"1","dependsOn":["a"],"name":"c","type":"Demo.Lab/things"},
"a":{"apiVersion":"1","name":"a","type":"Demo.Lab/things"},
"b":{"apiVersion":"1","dependsOn":["a","Z"],"name":"b","of":"[resourceId('Demo.Lab/things', 'a')]",
"state":"[reference(resourceId('Demo.Lab/things', 'c'), '1').size]","type":"Demo.Lab/things"}}}

resource y 'Demo.Lab/things@1' = { name: 'y' }
resource x 'Demo.Lab/things@1' = { name: 'x' }
resource z 'Demo.Lab/things@1' = {
  name: 'z'
  parts: [ x.id, y.name, x.type ]
}
=> {¶,"resources":{"x":{"apiVersion":"1","name":"x","type":"Demo.Lab/things"},
"y":{"apiVersion":"1","name":"y","type":"Demo.Lab/things"},
"z":{"apiVersion":"1","dependsOn":["y","x"],"name":"z",
"parts":["[resourceId('Demo.Lab/things', 'x')]","['y']","['Demo.Lab/things']"],"type":"Demo.Lab/things"}}}

=> {¶,"resources":{}}"#;

#[test]
fn resources_are_by_symbols(rt: HostRuntime) -> Result<(), Fail> {
    check_second(rt.alloc(), ORDER)
}

// Existing resources have no bodies and no dependencies, and nothing depends on them.
const EXISTING: &str = r#"resource e 'Demo.Lab/things@1' existing = { name: 'e' }
resource a 'Demo.Lab/things@1' = {
  name: 'a'
  x: e.id
  dependsOn: [ e ]
}
=> {¶,"resources":{"a":{"apiVersion":"1","name":"a","type":"Demo.Lab/things",
"x":"[resourceId('Demo.Lab/things', 'e')]"},
"e":{"apiVersion":"1","existing":true,"name":"e","type":"Demo.Lab/things"}}}

resource a 'Demo.Lab/things@1' = { name: 'a' }
resource e 'Demo.Lab/things@1' existing = {
  name: a.name
  tags: { x: a.id }
}
=> {¶,"resources":{"a":{"apiVersion":"1","name":"a","type":"Demo.Lab/things"},
"e":{"apiVersion":"1","existing":true,"name":"a","type":"Demo.Lab/things"}}}

param names array
resource net 'Demo.Lab/nets@1' existing = {
  name: 'net'
  resource web 'parts@2' = {
    name: 'web'
  }
}
resource all 'Demo.Lab/things@1' existing = [for n in names: {
  name: 'a-${n}'
}]
resource one 'Demo.Lab/things@1' = {
  name: 'one'
  of: all[0].id
  part: net::web.id
}
=> {¶,"parameters":{"names":{"type":"array"}},"resources":{
"all":{"apiVersion":"1","copy":{"count":"[length(parameters('names'))]","name":"all"},"existing":true,
"name":"[format('a-{0}', parameters('names')[copyIndex()])]","type":"Demo.Lab/things"},
"net":{"apiVersion":"1","existing":true,"name":"net","type":"Demo.Lab/nets"},
"one":{"apiVersion":"1","dependsOn":["web"],"name":"one",
"of":"[resourceId('Demo.Lab/things', format('a-{0}', parameters('names')[0]))]",
"part":"[resourceId('Demo.Lab/nets/parts', 'net', 'web')]","type":"Demo.Lab/things"},
"web":{"apiVersion":"2","name":"[format('{0}/{1}', 'net', 'web')]","type":"Demo.Lab/nets/parts"}}}

param p bool
resource a 'Demo.Lab/things@1' = if (p) {
  name: 'a'
  @description('Old.')
  resource e 'parts' existing = {
    name: 'e'
  }
}
output id string = a::e.id
=> {¶,"outputs":{"id":{"type":"string","value":"[resourceId('Demo.Lab/things/parts', 'a', 'e')]"}},
"parameters":{"p":{"type":"bool"}},"resources":{
"a":{"apiVersion":"1","condition":"[parameters('p')]","name":"a","type":"Demo.Lab/things"},
"e":{"apiVersion":"1","condition":"[parameters('p')]","existing":true,"metadata":{"description":"Old."},
"name":"[format('{0}/{1}', 'a', 'e')]","type":"Demo.Lab/things/parts"}}}"#;

#[test]
fn existing_resources_are_there(rt: HostRuntime) -> Result<(), Fail> {
    check_second(rt.alloc(), EXISTING)
}

// A loop has the name of its symbol, and all its instances are meant by it.
const LOOPS: &str = r#"param names array
@batchSize(2)
resource a 'Demo.Lab/things@1' = [for n in names: {
  name: 'a-${n}'
}]
resource b 'Demo.Lab/things@1' = {
  name: 'b'
  first: a[0].id
}
=> {¶,"parameters":{"names":{"type":"array"}},"resources":{"a":{"apiVersion":"1",
"copy":{"batchSize":2,"count":"[length(parameters('names'))]","mode":"serial","name":"a"},
"name":"[format('a-{0}', parameters('names')[copyIndex()])]","type":"Demo.Lab/things"},
"b":{"apiVersion":"1","dependsOn":["a"],
"first":"[resourceId('Demo.Lab/things', format('a-{0}', parameters('names')[0]))]","name":"b",
"type":"Demo.Lab/things"}}}

param xs array
resource zones 'Demo.Lab/zones@1' = [for x in xs: {
  name: 'z-${x}'
}]
resource links 'Demo.Lab/zones/links@2' = [for (x, i) in xs: if (i > 0) {
  parent: zones[i]
  name: 'to-${x}'
}]
=> {¶,"parameters":{"xs":{"type":"array"}},"resources":{
"links":{"apiVersion":"2","condition":"[greater(copyIndex(), 0)]",
"copy":{"count":"[length(parameters('xs'))]","name":"links"},"dependsOn":["zones"],
"name":"[format('{0}/{1}', format('z-{0}', parameters('xs')[copyIndex()]),
 format('to-{0}', parameters('xs')[copyIndex()]))]","type":"Demo.Lab/zones/links"},
"zones":{"apiVersion":"1","copy":{"count":"[length(parameters('xs'))]","name":"zones"},
"name":"[format('z-{0}', parameters('xs')[copyIndex()])]","type":"Demo.Lab/zones"}}}"#;

#[test]
fn loops_have_the_names_of_symbols(rt: HostRuntime) -> Result<(), Fail> {
    check_second(rt.alloc(), LOOPS)
}

// Nested resources, and children by their parent.
const CHILDREN: &str = r#"param p bool
resource net 'Demo.Lab/nets@1' = if (p) {
  name: 'net'
  resource web 'parts' = {
    name: 'web'
  }
}
resource more 'Demo.Lab/nets/parts@2' = {
  parent: net
  name: 'more'
}
resource old 'Demo.Lab/nets@1' existing = {
  name: 'old'
}
resource far 'Demo.Lab/nets/parts@2' = {
  parent: old
  name: 'far'
}
=> {¶,"parameters":{"p":{"type":"bool"}},"resources":{
"far":{"apiVersion":"2","name":"[format('{0}/{1}', 'old', 'far')]","type":"Demo.Lab/nets/parts"},
"more":{"apiVersion":"2","dependsOn":["net"],"name":"[format('{0}/{1}', 'net', 'more')]",
"type":"Demo.Lab/nets/parts"},
"net":{"apiVersion":"1","condition":"[parameters('p')]","name":"net","type":"Demo.Lab/nets"},
"old":{"apiVersion":"1","existing":true,"name":"old","type":"Demo.Lab/nets"},
"web":{"apiVersion":"1","condition":"[parameters('p')]","dependsOn":["net"],
"name":"[format('{0}/{1}', 'net', 'web')]","type":"Demo.Lab/nets/parts"}}}"#;

#[test]
fn children_are_by_symbols(rt: HostRuntime) -> Result<(), Fail> {
    check_second(rt.alloc(), CHILDREN)
}

// The template of a module is of the same form.
const MODULES: &str = r#"module m 'parts.bicep' = {
  name: 'inner'
  params: { size: 2 }
}
resource a 'Demo.Lab/things@1' = {
  name: 'a'
  from: m.outputs.id
}
--- parts.bicep
param size int
resource z 'Demo.Lab/things@1' = {
  name: 'z'
  size: size
}
output id string = z.id
=> {¶,"resources":{"a":{"apiVersion":"1","dependsOn":["m"],
"from":"[reference(resourceId('Microsoft.Resources/deployments', 'inner')).outputs.id.value]","name":"a",
"type":"Demo.Lab/things"},"m":{"apiVersion":"2022-09-01","name":"inner","properties":{
"expressionEvaluationOptions":{"scope":"inner"},"mode":"Incremental","parameters":{"size":{"value":2}},
"template":{¶,"outputs":{"id":{"type":"string","value":"[resourceId('Demo.Lab/things', 'z')]"}},
"parameters":{"size":{"type":"int"}},"resources":{"z":{"apiVersion":"1","name":"z",
"size":"[parameters('size')]","type":"Demo.Lab/things"}}}},"type":"Microsoft.Resources/deployments"}}}

param xs array
module n 'm.bicep' = {
  name: 'last'
  params: { p: m[1].outputs.o }
}
@batchSize(2)
module m 'm.bicep' = [for (x, i) in xs: if (i > 0) {
  params: { p: x }
}]
--- m.bicep
param p string
output o string = p
=> {¶,"parameters":{"xs":{"type":"array"}},"resources":{
"m":{"apiVersion":"2022-09-01","condition":"[greater(copyIndex(), 0)]",
"copy":{"batchSize":2,"count":"[length(parameters('xs'))]","mode":"serial","name":"m"},
"name":"[format('m-{0}', copyIndex())]","properties":{"expressionEvaluationOptions":{"scope":"inner"},
"mode":"Incremental","parameters":{"p":{"value":"[parameters('xs')[copyIndex()]]"}},
"template":{¶,"outputs":{"o":{"type":"string","value":"[parameters('p')]"}},
"parameters":{"p":{"type":"string"}},"resources":{}}},"type":"Microsoft.Resources/deployments"},
"n":{"apiVersion":"2022-09-01","dependsOn":["m"],"name":"last",
"properties":{"expressionEvaluationOptions":{"scope":"inner"},"mode":"Incremental",
"parameters":{"p":{"value":
"[reference(resourceId('Microsoft.Resources/deployments', format('m-{0}', 1))).outputs.o.value]"}},
"template":{¶,"outputs":{"o":{"type":"string","value":"[parameters('p')]"}},
"parameters":{"p":{"type":"string"}},"resources":{}}},"type":"Microsoft.Resources/deployments"}}}"#;

#[test]
fn modules_are_of_the_same_form(rt: HostRuntime) -> Result<(), Fail> {
    check_second(rt.alloc(), MODULES)
}
