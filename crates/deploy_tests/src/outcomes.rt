// Deployments that end, and their reports.

use crate::rows::check_rows;
use std::test::Fail;

const EXAMPLES: &str = r#"deploy main.bicep --group g --name e
=> 0 Succeeded e

deploy main.bicep --group g --name first
param location string = resourceGroup().location
resource st 'Microsoft.Storage/storageAccounts@2023-01-01' = {
  name: 'st${uniqueString(resourceGroup().id)}'
  location: location
  sku: { name: 'Standard_LRS' }
  kind: 'StorageV2'
}
output blob string = st.properties.primaryEndpoints.blob
=> 0 Succeeded first
blob="https://stve2cs42otwiw2.blob.core.windows.net/"

deploy main.bicep --group g --name d
output o string = '[x]'
=> 0 Succeeded d
o="[x]"

deploy main.bicep --group g --name d
param n int = 3
output o string = '{a}${n}'
=> 0 Succeeded d
o="{a}3"

deploy main.bicep --group g --name d
resource a 'Demo.Lab/things@2024-01-01' = [for x in []: { name: 'a${x}' }]
resource b 'Demo.Lab/things@2024-01-01' = {
  name: 'b'
  dependsOn: [ a ]
}
=> 0 Succeeded d

deploy main.bicep --group g --name d
var v = [for i in range(0, 3): i * 2]
output o int = v[2]
=> 0 Succeeded d
o=4

deploy main.bicep --group g --name d
output o array = [for (x, i) in ['p', 'q']: '${x}${i}']
=> 0 Succeeded d
o=["p0","q1"]

deploy main.bicep --group g --name d
param use bool = false
resource st 'Demo.Lab/things@2024-01-01' existing = { name: 'st' }
var p = st.properties.no.deep
output o string = use ? p : 'none'
=> 0 Succeeded d
o="none"

deploy main.bicep --group g --name d
module m 'm.bicep' = {
  params: { i: 2 }
}
output sum int = m.outputs.sum
--- m.bicep
param i int
resource a 'Demo.Lab/things@2024-01-01' = [for j in range(0, 10): {
  name: 'a${i}x${j}'
  properties: { v: i * 10 + j }
}]
resource b 'Demo.Lab/things@2024-01-01' = {
  name: 'b${i}'
  properties: { sum: a[0].properties.v + a[9].properties.v }
}
output sum int = b.properties.sum
=> 0 Succeeded d
sum=49

deploy main.bicep --group g --name d
module m 'm.bicep' = {
}
resource a 'Demo.Lab/things@2024-01-01' = {
  name: m.outputs.nm
}
output id string = a.id
--- m.bicep
resource st 'Demo.Lab/things@2024-01-01' = {
  name: 'st'
}
output nm string = '${st.name}-a'
=> 0 Succeeded d
id="§Demo.Lab/things/st-a"

deploy main.bicep --group g --name d --parameters p.json
@secure()
param word string
param Size int = 1
output same string = word
output size int = Size
--- p.json
{"parameters":{"word":{"value":"x"},"size":{"value":3}}}
=> 0 Succeeded d
same="x"
size=3

deploy main.bicep --group g --name e --mode complete
=> 0 Succeeded e

deploy main.bicep --group=G --subscription s --name d
resource a 'Demo.Lab/things@2024-01-01' = { name: 'a' }
output id string = a.id
=> 0 Succeeded d
id="/subscriptions/s/resourceGroups/G/providers/Demo.Lab/things/a"

deploy main.bicep --group g --name d
param p bool = true
resource a 'Demo.Lab/things@2024-01-01' = if (p) { name: 'a' }
resource b 'Demo.Lab/things@2024-01-01' = if (!p) { name: 'a' }
output id string = a.id
=> 0 Succeeded d
id="§Demo.Lab/things/a"

deploy main.bicep --group g --name d
output z string = 'last'
output a string = 'first'
output B int = 2
=> 0 Succeeded d
B=2
a="first"
z="last"

deploy main.bicep --group g --name d
@batchSize(2)
resource a 'Demo.Lab/things@2024-01-01' = [for i in range(0, 5): {
  name: 'a${i}'
  properties: { n: i }
}]
output n int = a[4].properties.n
=> 0 Succeeded d
n=4"#;

#[test]
fn deployments_that_succeed(rt: HostRuntime) -> Result<(), Fail> {
    check_rows(&rt, rt.alloc(), EXAMPLES)
}

const FAILURES: &str = r#"deploy main.bicep --group g --name d
param use bool = true
resource st 'Demo.Lab/things@2024-01-01' existing = { name: 'st' }
var p = st.properties.no.deep
output o string = use ? p : 'none'
=> 3 Failed d: NoValue: leave /: /outputs/o/value

deploy main.bicep --group g --name d
resource a 'Demo.Lab/things@2024-01-01' = {
  name: 'a'
  properties: { x: 'y' }
}
output o int = a.properties.x
=> 3 Failed d: InvalidParameter: leave /: WrongType o

deploy main.bicep --group g --name d
resource st 'Demo.Lab/things@2024-01-01' existing = { name: 'st' }
output o string = st.properties.no.deep
=> 3 Failed d: NoValue: leave /: /outputs/o/value

deploy main.bicep --group g --name logs
resource account 'Microsoft.Storage/storageAccounts@2023-01-01' = {
  name: 'logs'
  sku: { name: 'Standard_LRS' }
}
=> 3 Failed logs: LocationRequired: §Microsoft.Storage/storageAccounts/logs

deploy main.bicep --group g --name d
resource ea 'Demo.Lab/things@2024-01-01' existing = { name: 'a' }
resource eb 'Demo.Lab/things@2024-01-01' existing = { name: 'b' }
resource a 'Demo.Lab/things@2024-01-01' = {
  name: 'a'
  x: eb.size
}
resource b 'Demo.Lab/things@2024-01-01' = {
  name: 'b'
  x: ea.size
}
=> 3 Failed d: CircularDependency: §Demo.Lab/things/a §Demo.Lab/things/b"#;

#[test]
fn deployments_that_fail(rt: HostRuntime) -> Result<(), Fail> {
    check_rows(&rt, rt.alloc(), FAILURES)
}
