// Templates and deployments in the second form.

use crate::rows::check_rows;
use std::test::Fail;

const TEMPLATES: &str = r#"build main.bicep --language 2.0
resource a 'Demo.Lab/things@2024-01-01' = {
  name: 'a'
  size: 2
}
=> 0 {"$schema":"https://schema.management.azure.com/schemas/2019-04-01/deploymentTemplate.json#",\
"contentVersion":"1.0.0.0","languageVersion":"2.0",\
"resources":{"a":{"apiVersion":"2024-01-01","name":"a","size":2,"type":"Demo.Lab/things"}}}

build --language=2.0 main.bicep
=> 0 {"$schema":"https://schema.management.azure.com/schemas/2019-04-01/deploymentTemplate.json#",\
"contentVersion":"1.0.0.0","languageVersion":"2.0","resources":{}}

build main.bicep --language 2.0
resource b 'Demo.Lab/things@1' = {
  name: 'b'
  of: a.id
  old: e.id
}
resource a 'Demo.Lab/things@1' = { name: 'a' }
resource e 'Demo.Lab/things@1' existing = { name: 'e' }
=> 0 {"$schema":"https://schema.management.azure.com/schemas/2019-04-01/deploymentTemplate.json#",\
"contentVersion":"1.0.0.0","languageVersion":"2.0","resources":{\
"a":{"apiVersion":"1","name":"a","type":"Demo.Lab/things"},\
"b":{"apiVersion":"1","dependsOn":["a"],"name":"b","of":"[resourceId('Demo.Lab/things', 'a')]",\
"old":"[resourceId('Demo.Lab/things', 'e')]","type":"Demo.Lab/things"},\
"e":{"apiVersion":"1","existing":true,"name":"e","type":"Demo.Lab/things"}}}"#;

#[test]
fn templates_of_the_second_form(rt: HostRuntime) -> Result<(), Fail> {
    check_rows(&rt, rt.alloc(), TEMPLATES)
}

// What is printed is the same as in the first form.
const DEPLOYMENTS: &str = r#"deploy main.bicep --group g --name first --language 2.0
param location string = resourceGroup().location
resource st 'Microsoft.Storage/storageAccounts@2023-01-01' = {
  name: 'st${uniqueString(resourceGroup().id)}'
  location: location
  sku: { name: 'Standard_LRS' }
  kind: 'StorageV2'
}
output blob string = st.properties.primaryEndpoints.blob
=> 0 Succeeded first
blob="https://stve2cs42otwiw2.blob.core.windows.net/"

deploy main.bicep --group g --name e --language 2.0
=> 0 Succeeded e

deploy main.bicep --language 2.0 --group g --name d
resource a 'Demo.Lab/things@2024-01-01' = [for x in []: { name: 'a${x}' }]
resource b 'Demo.Lab/things@2024-01-01' = {
  name: 'b'
  dependsOn: [ a ]
}
=> 0 Succeeded d

deploy main.bicep --group g --name d --language 2.0
param use bool = false
resource st 'Demo.Lab/things@2024-01-01' existing = { name: 'st' }
var p = st.properties.no.deep
output o string = use ? p : 'none'
=> 0 Succeeded d
o="none"

deploy main.bicep --group g --name d --language 2.0
module m 'm.bicep' = {
  params: { i: 2 }
}
output sum int = m.outputs.sum
--- m.bicep
param i int
resource a 'Demo.Lab/things@2024-01-01' = [for j in range(0, 10): {
  name: 'a${i}x${j}'
  properties: { v: i * 10 + j }
}]
resource b 'Demo.Lab/things@2024-01-01' = {
  name: 'b${i}'
  properties: { sum: a[0].properties.v + a[9].properties.v }
}
output sum int = b.properties.sum
=> 0 Succeeded d
sum=49

deploy main.bicep --group g --name d --language 2.0
module m 'm.bicep' = {
}
resource a 'Demo.Lab/things@2024-01-01' = {
  name: m.outputs.nm
}
output id string = a.id
--- m.bicep
resource st 'Demo.Lab/things@2024-01-01' = {
  name: 'st'
}
output nm string = '${st.name}-a'
=> 0 Succeeded d
id="§Demo.Lab/things/st-a"

deploy main.bicep --group g --name d --language 2.0
param p bool = false
resource one 'Demo.Lab/things@2024-01-01' = if (p) {
  name: 'a'
  size: 1
}
resource two 'Demo.Lab/things@2024-01-01' = if (!p) {
  name: 'a'
  size: 2
}
resource last 'Demo.Lab/things@2024-01-01' = {
  name: 'b'
  size: two.size
}
output size int = last.size
=> 0 Succeeded d
size=2"#;

#[test]
fn deployments_in_the_second_form(rt: HostRuntime) -> Result<(), Fail> {
    check_rows(&rt, rt.alloc(), DEPLOYMENTS)
}

// A path has the name of a symbol in the place of a number.
const REFUSALS: &str = r#"deploy main.bicep --group g --name d --language 2.0
resource x 'Demo.Lab/things@2024-01-01' = if (true) { name: 'a' }
resource y 'Demo.Lab/things@2024-01-01' = if (true) { name: 'a' }
=> 1 error InvalidTemplate: SameKey /resources/x /resources/y

deploy main.bicep --group g --name d --language 2.0
var v = 1 / 0
=> 1 error InvalidTemplate: NoValue /variables/v

deploy main.bicep --group g --name d --language 2.0
module m 'm.bicep' = {
}
resource a 'Demo.Lab/things@2024-01-01' = {
  name: m.outputs.nm
}
--- m.bicep
resource st 'Demo.Lab/things@2024-01-01' = {
  name: 'st'
}
output nm string = st.properties.x
=> 1 error InvalidTemplate: NotStartKnown /resources/a/name"#;

#[test]
fn templates_without_plans(rt: HostRuntime) -> Result<(), Fail> {
    check_rows(&rt, rt.alloc(), REFUSALS)
}

const FAILURES: &str = r#"deploy main.bicep --group g --name d --language 2.0
resource st 'Demo.Lab/things@2024-01-01' existing = { name: 'st' }
output o string = st.properties.no.deep
=> 3 Failed d: NoValue: leave /: /outputs/o/value

deploy main.bicep --group g --name d --language 2.0
resource ea 'Demo.Lab/things@2024-01-01' existing = { name: 'a' }
resource eb 'Demo.Lab/things@2024-01-01' existing = { name: 'b' }
resource a 'Demo.Lab/things@2024-01-01' = {
  name: 'a'
  x: eb.size
}
resource b 'Demo.Lab/things@2024-01-01' = {
  name: 'b'
  x: ea.size
}
=> 3 Failed d: CircularDependency: §Demo.Lab/things/a §Demo.Lab/things/b"#;

#[test]
fn failures_in_the_second_form(rt: HostRuntime) -> Result<(), Fail> {
    check_rows(&rt, rt.alloc(), FAILURES)
}
