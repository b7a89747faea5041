// What modules become.

use crate::rows::{check_program, check_rows};
use std::test::Fail;
use template_parts::Form;

const MODULES: &str = r#"param xs array
module m 'm.bicep' = {
  name: 'first'
  params: {
    P: 'x'
    q: [for x in xs: x.a]
  }
}
module n './m.bicep' = [for i in range(0, 2): {
  params: {
    p: m.outputs.o
  }
}]
output o string = m.outputs.o
output p string = n[1].outputs.o
output name string = m.name
--- m.bicep
param p string
param q array = []
output o string = p
=> {§,"outputs":{"name":{"type":"string","value":"['first']"},"o":{"type":"string",
"value":"[reference(resourceId('Microsoft.Resources/deployments', 'first')).outputs.o.value]"},"p":{"type":"string",
"value":"[reference(resourceId('Microsoft.Resources/deployments', format('n-{0}', 1))).outputs.o.value]"}},
"parameters":{"xs":{"type":"array"}},"resources":[{"apiVersion":"2022-09-01","name":"first","properties":{
"expressionEvaluationOptions":{"scope":"inner"},"mode":"Incremental","parameters":{"P":{"value":"x"},
"q":{"copy":[{"count":"[length(parameters('xs'))]","input":"[parameters('xs')[copyIndex('value')].a]",
"name":"value"}]}},"template":{§,"outputs":{"o":{"type":"string","value":"[parameters('p')]"}},
"parameters":{"p":{"type":"string"},"q":{"defaultValue":[],"type":"array"}},"resources":[]}},
"type":"Microsoft.Resources/deployments"},
{"apiVersion":"2022-09-01","copy":{"count":"[length(range(0, 2))]","name":"n"},
"dependsOn":["[resourceId('Microsoft.Resources/deployments', 'first')]"],"name":"[format('n-{0}', copyIndex())]",
"properties":{"expressionEvaluationOptions":{"scope":"inner"},"mode":"Incremental","parameters":{"p":{
"value":"[reference(resourceId('Microsoft.Resources/deployments', 'first')).outputs.o.value]"}},
"template":{§,"outputs":{"o":{"type":"string","value":"[parameters('p')]"}},
"parameters":{"p":{"type":"string"},"q":{"defaultValue":[],"type":"array"}},"resources":[]}},
"type":"Microsoft.Resources/deployments"}]}

param on bool
module m 'a/m.bicep' = if (on) {
}
--- a/m.bicep
module n '../n.bicep' = {
  params: { p: -1 }
}
--- n.bicep
param p int
resource a 'Demo.Lab/things@1' = {
  name: 'a'
}
=> {§,"parameters":{"on":{"type":"bool"}},"resources":[{"apiVersion":"2022-09-01","condition":"[parameters('on')]",
"name":"m","properties":{"expressionEvaluationOptions":{"scope":"inner"},
"mode":"Incremental","template":{§,"resources":[{"apiVersion":"2022-09-01","name":"n","properties":{
"expressionEvaluationOptions":{"scope":"inner"},"mode":"Incremental","parameters":{"p":{"value":-1}},
"template":{§,"parameters":{"p":{"type":"int"}},"resources":[
{"apiVersion":"1","name":"a","type":"Demo.Lab/things"}]}},"type":"Microsoft.Resources/deployments"}]}},
"type":"Microsoft.Resources/deployments"}]}

module m 'm.bicep' = {
}
resource a 'Demo.Lab/things@1' = {
  name: m.outputs.nm
}
--- m.bicep
resource st 'Demo.Lab/things@1' = {
  name: 'st'
}
output nm string = st.name
=> {§,"resources":[{"apiVersion":"2022-09-01","name":"m","properties":{
"expressionEvaluationOptions":{"scope":"inner"},"mode":"Incremental","template":{§,
"outputs":{"nm":{"type":"string","value":"['st']"}},"resources":[
{"apiVersion":"1","name":"st","type":"Demo.Lab/things"}]}},"type":"Microsoft.Resources/deployments"},
{"apiVersion":"1","dependsOn":["[resourceId('Microsoft.Resources/deployments', 'm')]"],
"name":"[reference(resourceId('Microsoft.Resources/deployments', 'm')).outputs.nm.value]","type":"Demo.Lab/things"}]}"#;

#[test]
fn modules(rt: HostRuntime) -> Result<(), Fail> {
    check_rows(rt.alloc(), MODULES)
}

// Rules, batches, conditions, nested resources and a module, which all read each other.
const WHOLE: &str = r#"@minLength(2)
param p string = 'ab'
param n int
var v = '${p}-x'
@batchSize(3)
resource a 'Demo.Lab/a@2020-01-01' = [for i in range(0, n): {
  name: '${v}${i}'
  properties: {
    size: n
    list: [1, true, null]
  }
}]
resource b 'Demo.Lab/b@2020-01-01' = if (n > 2) {
  name: 'b'
  dependsOn: [a]
  resource c 'c' = {
    name: 'c'
    properties: {
      m: m.outputs.o
    }
  }
}
module m 'm.bicep' = {
  name: 'dep'
  params: {
    q: b.properties.x
  }
}
output o string = b.id
--- m.bicep
param q object
output o string = q.y
"#;

// The template of that program in the first form.
const FIRST: &str =
    r#"{§,"outputs":{"o":{"type":"string","value":"[resourceId('Demo.Lab/b', 'b')]"}},
"parameters":{"n":{"type":"int"},"p":{"defaultValue":"ab","minLength":2,"type":"string"}},
"resources":[{"apiVersion":"2020-01-01","copy":{"batchSize":3,"count":"[length(range(0, parameters('n')))]",
"mode":"serial","name":"a"},"name":"[format('{0}{1}', variables('v'), range(0, parameters('n'))[copyIndex()])]",
"properties":{"list":[1,true,null],"size":"[parameters('n')]"},"type":"Demo.Lab/a"},
{"apiVersion":"2020-01-01","condition":"[greater(parameters('n'), 2)]","dependsOn":["a"],"name":"b",
"type":"Demo.Lab/b"},
{"apiVersion":"2020-01-01","condition":"[greater(parameters('n'), 2)]","dependsOn":["[resourceId('Demo.Lab/b', 'b')]",
"[resourceId('Microsoft.Resources/deployments', 'dep')]"],"name":"[format('{0}/{1}', 'b', 'c')]",
"properties":{"m":"[reference(resourceId('Microsoft.Resources/deployments', 'dep')).outputs.o.value]"},
"type":"Demo.Lab/b/c"},
{"apiVersion":"2022-09-01","dependsOn":["[resourceId('Demo.Lab/b', 'b')]"],"name":"dep",
"properties":{"expressionEvaluationOptions":{"scope":"inner"},"mode":"Incremental",
"parameters":{"q":{"value":"[reference(resourceId('Demo.Lab/b', 'b'), '2020-01-01').x]"}},
"template":{§,"outputs":{"o":{"type":"string","value":"[parameters('q').y]"}},
"parameters":{"q":{"type":"object"}},"resources":[]}},"type":"Microsoft.Resources/deployments"}],
"variables":{"v":"[format('{0}-x', parameters('p'))]"}}"#;

#[test]
fn a_program_of_two_files(rt: HostRuntime) -> Result<(), Fail> {
    check_program(rt.alloc(), Form::One, WHOLE, FIRST)
}

// Its template in the second form.
const SECOND: &str =
    r#"{¶,"outputs":{"o":{"type":"string","value":"[resourceId('Demo.Lab/b', 'b')]"}},
"parameters":{"n":{"type":"int"},"p":{"defaultValue":"ab","minLength":2,"type":"string"}},
"resources":{"a":{"apiVersion":"2020-01-01","copy":{"batchSize":3,"count":"[length(range(0, parameters('n')))]",
"mode":"serial","name":"a"},"name":"[format('{0}{1}', variables('v'), range(0, parameters('n'))[copyIndex()])]",
"properties":{"list":[1,true,null],"size":"[parameters('n')]"},"type":"Demo.Lab/a"},
"b":{"apiVersion":"2020-01-01","condition":"[greater(parameters('n'), 2)]","dependsOn":["a"],"name":"b",
"type":"Demo.Lab/b"},
"c":{"apiVersion":"2020-01-01","condition":"[greater(parameters('n'), 2)]","dependsOn":["b","m"],
"name":"[format('{0}/{1}', 'b', 'c')]",
"properties":{"m":"[reference(resourceId('Microsoft.Resources/deployments', 'dep')).outputs.o.value]"},
"type":"Demo.Lab/b/c"},
"m":{"apiVersion":"2022-09-01","dependsOn":["b"],"name":"dep",
"properties":{"expressionEvaluationOptions":{"scope":"inner"},"mode":"Incremental",
"parameters":{"q":{"value":"[reference(resourceId('Demo.Lab/b', 'b'), '2020-01-01').x]"}},
"template":{¶,"outputs":{"o":{"type":"string","value":"[parameters('q').y]"}},
"parameters":{"q":{"type":"object"}},"resources":{}}},"type":"Microsoft.Resources/deployments"}},
"variables":{"v":"[format('{0}-x', parameters('p'))]"}}"#;

#[test]
fn a_program_of_two_files_in_the_second_form(rt: HostRuntime) -> Result<(), Fail> {
    check_program(rt.alloc(), Form::Two, WHOLE, SECOND)
}
