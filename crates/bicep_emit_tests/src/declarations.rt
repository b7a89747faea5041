// What declarations of one file become.

use crate::rows::check_rows;
use std::test::Fail;

const PARAMETERS: &str = r#"metadata owner = 'x'
targetScope = 'resourceGroup'
=> {§,"resources":[]}

@minValue(1)
@maxValue(9)
param size int = 3
@allowed([ 'a', '[b]', -1 ])
param kind string
@secure()
@minLength(3)
@maxLength(8)
param word string
@sys.secure()
param keys object = {}
param days array = []
param on bool = true
param all object = {
  b: [ null, { c: -1 } ]
  a: '[x]'
}
=> {§,"parameters":{"all":{"defaultValue":{"a":"[[x]","b":[null,{"c":-1}]},"type":"object"},
"days":{"defaultValue":[],"type":"array"},"keys":{"defaultValue":{},"type":"secureObject"},
"kind":{"allowedValues":["a","[[b]",-1],"type":"string"},"on":{"defaultValue":true,"type":"bool"},
"size":{"defaultValue":3,"maxValue":9,"minValue":1,"type":"int"},
"word":{"maxLength":8,"minLength":3,"type":"securestring"}},"resources":[]}

@description('One.')
param a int = 1
@metadata({ unit: 'day', description: 'Lost.' })
@description('Two.')
param b string = '${a}'
@metadata({ unit: [ 1, 'x' ] })
param c bool
=> {§,"parameters":{"a":{"defaultValue":1,"metadata":{"description":"One."},"type":"int"},
"b":{"defaultValue":"[format('{0}', parameters('a'))]","metadata":{"description":"Two.","unit":"day"},"type":"string"},
"c":{"metadata":{"unit":[1,"x"]},"type":"bool"}},"resources":[]}"#;

#[test]
fn parameters(rt: HostRuntime) -> Result<(), Fail> {
    check_rows(rt.alloc(), PARAMETERS)
}

const VARIABLES: &str = r#"var a = 'it\'s'
var b = -1
var c = { x: [ 1, null, 'y' ], a: true }
var d = '[x]'
var e = '[x'
@description('Not emitted.')
var f = 1 + 2
var g = { x: f, y: [ f ] }
var h = concat('it\'s', '[x]')
var i = !true
var j = union({ b: 1, a: [ 2 ] }, {})
var k = (f + 1) * -f
var l = TOLOWER('X')
var m = sys.length(az.resourceGroup().name)
var n = 'x' =~ 'y' || f != 2 && f >= 1
var o = c.?x[?0] ?? c.x[1]
var p = '${f}{${'a'}}'
=> {§,"resources":[],"variables":{"a":"it's","b":-1,"c":{"a":true,"x":[1,null,"y"]},"d":"[[x]","e":"[x",
"f":"[add(1, 2)]","g":{"x":"[variables('f')]","y":["[variables('f')]"]},"h":"[concat('it''s', '[x]')]",
"i":"[not(true())]","j":"[union(createObject('b', 1, 'a', createArray(2)), createObject())]",
"k":"[mul(add(variables('f'), 1), sub(0, variables('f')))]","l":"[toLower('X')]",
"m":"[length(resourceGroup().name)]",
"n":"[or(equals(toLower('x'), toLower('y')), and(not(equals(variables('f'), 2)), greaterOrEquals(variables('f'), 1)))]",
"o":"[coalesce(tryGet(tryGet(variables('c'), 'x'), 0), variables('c').x[1])]",
"p":"[format('{0}{{{1}}}', variables('f'), 'a')]"}}

param xs array
var sizes = [for x in xs: length(x)]
var twice = [for (x, i) in xs: { at: i, x: [ x ] }]
=> {§,"parameters":{"xs":{"type":"array"}},"resources":[],"variables":{"copy":[
{"count":"[length(parameters('xs'))]","input":"[length(parameters('xs')[copyIndex('sizes')])]","name":"sizes"},
{"count":"[length(parameters('xs'))]",
"input":{"at":"[copyIndex('twice')]","x":["[parameters('xs')[copyIndex('twice')]]"]},"name":"twice"}]}}"#;

#[test]
fn variables(rt: HostRuntime) -> Result<(), Fail> {
    check_rows(rt.alloc(), VARIABLES)
}

const OUTPUTS: &str = r#"param xs array
output all array = [for x in xs: x]
output at array = [for (x, i) in xs: i]
output on bool = !empty(xs)
output word string = 'x'
output whole object = { a: xs[0], b: [ 1 ] }
=> {§,"outputs":{
"all":{"copy":{"count":"[length(parameters('xs'))]","input":"[parameters('xs')[copyIndex()]]"},"type":"array"},
"at":{"copy":{"count":"[length(parameters('xs'))]","input":"[copyIndex()]"},"type":"array"},
"on":{"type":"bool","value":"[not(empty(parameters('xs')))]"},
"whole":{"type":"object","value":{"a":"[parameters('xs')[0]]","b":[1]}},"word":{"type":"string","value":"x"}},
"parameters":{"xs":{"type":"array"}},"resources":[]}"#;

#[test]
fn outputs(rt: HostRuntime) -> Result<(), Fail> {
    check_rows(rt.alloc(), OUTPUTS)
}

// Fields of resources, ids, names and states.
const RESOURCES: &str = r#"resource a 'Demo.Lab/things@2024-01-01' = {
  name: 'a'
  properties: { size: 2, on: true, none: null, word: '[x]' }
  tags: {}
}
var id = a.id
resource b 'Demo.Lab/things@2024-01-01' = {
  name: '${a.name}-b'
  of: id
  kind: a.type
  api: a.apiVersion
  dependsOn: [ a ]
}
resource c 'Demo.Lab/things@2024-01-01' = {
  name: 'c'
  state: a.properties.size
  zone: b.zones[0]
}
=> {§,"resources":[{"apiVersion":"2024-01-01","name":"a",
"properties":{"none":null,"on":true,"size":2,"word":"[[x]"},"tags":{},"type":"Demo.Lab/things"},
{"api":"['2024-01-01']","apiVersion":"2024-01-01","dependsOn":["[resourceId('Demo.Lab/things', 'a')]"],
"kind":"['Demo.Lab/things']","name":"[format('{0}-b', 'a')]","of":"[variables('id')]","type":"Demo.Lab/things"},
{"apiVersion":"2024-01-01","dependsOn":["[resourceId('Demo.Lab/things', 'a')]",
"[resourceId('Demo.Lab/things', format('{0}-b', 'a'))]"],"name":"c",
"state":"[reference(resourceId('Demo.Lab/things', 'a'), '2024-01-01').size]","type":"Demo.Lab/things",
"zone":"[reference(resourceId('Demo.Lab/things', format('{0}-b', 'a')), '2024-01-01', 'Full').zones[0]]"}],
"variables":{"id":"[resourceId('Demo.Lab/things', 'a')]"}}

param who string
resource a 'Demo.Lab/things/parts@1' = {
  name: 'big/small'
}
resource b 'Demo.Lab/things/parts@1' = {
  name: '${who}/x'
}
output a string = a.id
output b string = b.id
=> {§,"outputs":{"a":{"type":"string","value":"[resourceId('Demo.Lab/things/parts', 'big', 'small')]"},
"b":{"type":"string","value":"[resourceId('Demo.Lab/things/parts', split(format('{0}/x', parameters('who')), '/')[0],
 join(skip(split(format('{0}/x', parameters('who')), '/'), 1), '/'))]"}},
"parameters":{"who":{"type":"string"}},"resources":[
{"apiVersion":"1","name":"big/small","type":"Demo.Lab/things/parts"},
{"apiVersion":"1","name":"[format('{0}/x', parameters('who'))]","type":"Demo.Lab/things/parts"}]}

resource e 'Demo.Lab/things@1' existing = { name: 'e' }
resource a 'Demo.Lab/things@1' = {
  name: 'a'
  x: e.id
  dependsOn: [ e ]
}
=> {§,"resources":[{"apiVersion":"1","name":"a","type":"Demo.Lab/things",
"x":"[resourceId('Demo.Lab/things', 'e')]"}]}"#;

#[test]
fn resources(rt: HostRuntime) -> Result<(), Fail> {
    check_rows(rt.alloc(), RESOURCES)
}

const LOOPS: &str = r#"param names array
@batchSize(2)
resource a 'Demo.Lab/things@1' = [for (n, i) in names: if (i > 0) {
  name: 'a-${n}'
  order: i
  tags: { n: n }
}]
resource b 'Demo.Lab/things@1' = {
  name: 'b'
  first: a[0].id
}
output all array = [for (n, i) in names: a[i].name]
=> {§,"outputs":{"all":{"copy":{"count":"[length(parameters('names'))]",
"input":"[format('a-{0}', parameters('names')[copyIndex()])]"},"type":"array"}},
"parameters":{"names":{"type":"array"}},"resources":[{"apiVersion":"1","condition":"[greater(copyIndex(), 0)]",
"copy":{"batchSize":2,"count":"[length(parameters('names'))]","mode":"serial","name":"a"},
"name":"[format('a-{0}', parameters('names')[copyIndex()])]","order":"[copyIndex()]",
"tags":{"n":"[parameters('names')[copyIndex()]]"},"type":"Demo.Lab/things"},
{"apiVersion":"1","dependsOn":["a"],"first":"[resourceId('Demo.Lab/things', format('a-{0}', parameters('names')[0]))]",
"name":"b","type":"Demo.Lab/things"}]}

param xs array
resource a 'Demo.Lab/things@1' = {
  name: 'a'
  properties: {
    list: [for x in xs: x.name]
    inside: { each: [for (x, i) in xs: { at: i, x: x }] }
    plain: 1
  }
}
=> {§,"parameters":{"xs":{"type":"array"}},"resources":[{"apiVersion":"1","name":"a","properties":{
"copy":[{"count":"[length(parameters('xs'))]","input":"[parameters('xs')[copyIndex('list')].name]","name":"list"}],
"inside":{"copy":[{"count":"[length(parameters('xs'))]",
"input":{"at":"[copyIndex('each')]","x":"[parameters('xs')[copyIndex('each')]]"},"name":"each"}]},
"plain":1},"type":"Demo.Lab/things"}]}"#;

#[test]
fn loops(rt: HostRuntime) -> Result<(), Fail> {
    check_rows(rt.alloc(), LOOPS)
}

// Nested resources, and children by their parent.
const CHILDREN: &str = r#"param p bool
param q bool
resource net 'Microsoft.Network/virtualNetworks@2023-04-01' = if (p) {
  name: 'net'
  location: 'westeurope'
  resource web 'subnets' = {
    name: 'web'
  }
  resource data 'subnets@2023-05-01' = if (q) {
    name: 'data'
    dependsOn: [ web ]
  }
}
resource more 'Microsoft.Network/virtualNetworks/subnets@2023-04-01' = {
  parent: net
  name: 'more'
}
output id string = net::web.id
output name string = net::web.name
output moreId string = more.id
=> {§,"outputs":{
"id":{"type":"string","value":"[resourceId('Microsoft.Network/virtualNetworks/subnets', 'net', 'web')]"},
"moreId":{"type":"string","value":"[resourceId('Microsoft.Network/virtualNetworks/subnets', 'net', 'more')]"},
"name":{"type":"string","value":"['web']"}},
"parameters":{"p":{"type":"bool"},"q":{"type":"bool"}},"resources":[
{"apiVersion":"2023-04-01","condition":"[parameters('p')]","location":"westeurope","name":"net",
"type":"Microsoft.Network/virtualNetworks"},
{"apiVersion":"2023-04-01","condition":"[parameters('p')]",
"dependsOn":["[resourceId('Microsoft.Network/virtualNetworks', 'net')]"],
"name":"[format('{0}/{1}', 'net', 'web')]","type":"Microsoft.Network/virtualNetworks/subnets"},
{"apiVersion":"2023-05-01","condition":"[and(parameters('p'), parameters('q'))]",
"dependsOn":["[resourceId('Microsoft.Network/virtualNetworks', 'net')]",
"[resourceId('Microsoft.Network/virtualNetworks/subnets', 'net', 'web')]"],
"name":"[format('{0}/{1}', 'net', 'data')]","type":"Microsoft.Network/virtualNetworks/subnets"},
{"apiVersion":"2023-04-01","dependsOn":["[resourceId('Microsoft.Network/virtualNetworks', 'net')]"],
"name":"[format('{0}/{1}', 'net', 'more')]","type":"Microsoft.Network/virtualNetworks/subnets"}]}

param names array
resource zones 'Demo.Lab/zones@1' = [for n in names: {
  name: 'z-${n}'
}]
resource links 'Demo.Lab/zones/links@1' = [for (n, i) in names: {
  parent: zones[i]
  name: 'to-${n}'
}]
resource only 'Demo.Lab/zones/links@1' = {
  parent: zones[0]
  name: 'only'
}
output id string = links[1].id
=> {§,"outputs":{"id":{"type":"string","value":"[resourceId('Demo.Lab/zones/links',
 format('z-{0}', parameters('names')[1]), format('to-{0}', parameters('names')[1]))]"}},
"parameters":{"names":{"type":"array"}},"resources":[
{"apiVersion":"1","copy":{"count":"[length(parameters('names'))]","name":"zones"},
"name":"[format('z-{0}', parameters('names')[copyIndex()])]","type":"Demo.Lab/zones"},
{"apiVersion":"1","copy":{"count":"[length(parameters('names'))]","name":"links"},"dependsOn":["zones"],
"name":"[format('{0}/{1}', format('z-{0}', parameters('names')[copyIndex()]),
 format('to-{0}', parameters('names')[copyIndex()]))]","type":"Demo.Lab/zones/links"},
{"apiVersion":"1","dependsOn":["zones"],"name":"[format('{0}/{1}', format('z-{0}', parameters('names')[0]), 'only')]",
"type":"Demo.Lab/zones/links"}]}"#;

#[test]
fn children(rt: HostRuntime) -> Result<(), Fail> {
    check_rows(rt.alloc(), CHILDREN)
}
