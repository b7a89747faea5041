// The first programs: whole templates, byte by byte.

use crate::rows::check_rows;
use sample_programs::programs::{compare, outcome_text};
use std::test::Fail;
use template_parts::Form;

const EMPTY: &str = concat!(
    r#"{"$schema":"https://schema.management.azure.com/schemas/2019-04-01/deploymentTemplate.json#","#,
    r#""contentVersion":"1.0.0.0","resources":[]}"#,
);

#[test]
fn an_empty_file(rt: HostRuntime) -> Result<(), Fail> {
    let found = outcome_text(rt.alloc(), "", Form::One)?;
    compare(found.as_str(), EMPTY)
}

const STORAGE: &str = r#"param location string = resourceGroup().location
resource st 'Microsoft.Storage/storageAccounts@2023-01-01' = {
  name: 'st${uniqueString(resourceGroup().id)}'
  location: location
  sku: { name: 'Standard_LRS' }
  kind: 'StorageV2'
}
output blob string = st.properties.primaryEndpoints.blob
=> {§,"outputs":{"blob":{"type":"string","value":"[reference(resourceId('Microsoft.Storage/storageAccounts',
 format('st{0}', uniqueString(resourceGroup().id))), '2023-01-01').primaryEndpoints.blob]"}},
"parameters":{"location":{"defaultValue":"[resourceGroup().location]","type":"string"}},
"resources":[{"apiVersion":"2023-01-01","kind":"StorageV2","location":"[parameters('location')]",
"name":"[format('st{0}', uniqueString(resourceGroup().id))]","sku":{"name":"Standard_LRS"},
"type":"Microsoft.Storage/storageAccounts"}]}"#;

#[test]
fn the_usual_first_file(rt: HostRuntime) -> Result<(), Fail> {
    check_rows(rt.alloc(), STORAGE)
}

// Texts in brackets and in braces, and a loop over nothing.
const ROWS: &str = r#"output o string = '[x]'
=> {§,"outputs":{"o":{"type":"string","value":"[[x]"}},"resources":[]}

param n int = 3
output o string = '{a}${n}'
=> {§,"outputs":{"o":{"type":"string","value":"[format('{{a}}{0}', parameters('n'))]"}},
"parameters":{"n":{"defaultValue":3,"type":"int"}},"resources":[]}

resource a 'Demo.Lab/things@2024-01-01' = [for x in []: { name: 'a${x}' }]
resource b 'Demo.Lab/things@2024-01-01' = {
  name: 'b'
  dependsOn: [ a ]
}
=> {§,"resources":[{"apiVersion":"2024-01-01","copy":{"count":"[length(createArray())]","name":"a"},
"name":"[format('a{0}', createArray()[copyIndex()])]","type":"Demo.Lab/things"},
{"apiVersion":"2024-01-01","dependsOn":["a"],"name":"b","type":"Demo.Lab/things"}]}

resource a 'Demo.Lab/things@2024-01-01' = if (false) { name: 'a' }
=> {§,"resources":[{"apiVersion":"2024-01-01","condition":"[false()]","name":"a","type":"Demo.Lab/things"}]}

param p bool
resource a 'Demo.Lab/things@2024-01-01' = if (p) { name: 'a' }
resource b 'Demo.Lab/things@2024-01-01' = if (!p) { name: 'a' }
=> {§,"parameters":{"p":{"type":"bool"}},"resources":[
{"apiVersion":"2024-01-01","condition":"[parameters('p')]","name":"a","type":"Demo.Lab/things"},
{"apiVersion":"2024-01-01","condition":"[not(parameters('p'))]","name":"a","type":"Demo.Lab/things"}]}

param use bool = false
resource st 'Demo.Lab/things@2024-01-01' existing = { name: 'st' }
var p = st.properties.no.deep
output o string = use ? p : 'none'
=> {§,"outputs":{"o":{"type":"string",
"value":"[if(parameters('use'), reference(resourceId('Demo.Lab/things', 'st'), '2024-01-01').no.deep, 'none')]"}},
"parameters":{"use":{"defaultValue":false,"type":"bool"}},"resources":[]}

resource a 'Demo.Lab/things@2024-01-01' = {
  name: 'a'
  size: 2
}
=> {§,"resources":[{"apiVersion":"2024-01-01","name":"a","size":2,"type":"Demo.Lab/things"}]}

var v = [for i in range(0, 3): i * 2]
output o int = v[2]
=> {§,"outputs":{"o":{"type":"int","value":"[variables('v')[2]]"}},"resources":[],
"variables":{"copy":[{"count":"[length(range(0, 3))]","input":"[mul(range(0, 3)[copyIndex('v')], 2)]","name":"v"}]}}

output o array = [for (x, i) in ['p', 'q']: '${x}${i}']
=> {§,"outputs":{"o":{"copy":{"count":"[length(createArray('p', 'q'))]",
"input":"[format('{0}{1}', createArray('p', 'q')[copyIndex()], copyIndex())]"},"type":"array"}},"resources":[]}

var v = 1 / 0
=> {§,"resources":[],"variables":{"v":"[div(1, 0)]"}}"#;

#[test]
fn texts_loops_and_conditions(rt: HostRuntime) -> Result<(), Fail> {
    check_rows(rt.alloc(), ROWS)
}
