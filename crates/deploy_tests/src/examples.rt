// The examples of the repository: their files, and what is printed of them.

use crate::rows::{NONE, check_run};
use std::test::Fail;

const FIRST: &str = r#"resource a 'Demo.Lab/things@2024-01-01' = {
  name: 'a'
  size: 2
}"#;

#[test]
fn first(rt: HostRuntime) -> Result<(), Fail> {
    let wanted = r#"0 Succeeded first"#;
    check_run(
        &rt,
        rt.alloc(),
        ("deploy main.bicep --group g --name first", FIRST, wanted),
        NONE,
    )
}

pub const STORAGE: &str =
    r#"// A storage account whose name is made of the group, and the address of its blobs.
param location string = resourceGroup().location

resource st 'Microsoft.Storage/storageAccounts@2023-01-01' = {
  name: 'st${uniqueString(resourceGroup().id)}'
  location: location
  sku: { name: 'Standard_LRS' }
  kind: 'StorageV2'
}

output blob string = st.properties.primaryEndpoints.blob"#;

#[test]
fn storage(rt: HostRuntime) -> Result<(), Fail> {
    let wanted = r#"0 Succeeded first
blob="https://stve2cs42otwiw2.blob.core.windows.net/""#;
    check_run(
        &rt,
        rt.alloc(),
        ("deploy main.bicep --group g --name first", STORAGE, wanted),
        NONE,
    )
}

const NETWORK: &str =
    r#"// A network with its subnets, a security group for each of them, and a peering to each network in a list.
param location string = resourceGroup().location
param prefix string = '10.20'
param subnets array = [
  { name: 'web', ports: [ 80, 443 ] }
  { name: 'data', ports: [ 5432 ] }
]
param spokes array = [ 'north', 'south' ]

var space = '${prefix}.0.0/16'

resource groups 'Microsoft.Network/networkSecurityGroups@2023-04-01' = [for subnet in subnets: {
  name: 'nsg-${subnet.name}'
  location: location
  properties: {
    securityRules: [for (port, i) in subnet.ports: {
      name: 'port-${port}'
      properties: {
        access: 'Allow'
        direction: 'Inbound'
        priority: 100 + 10 * i
        destinationPortRange: string(port)
      }
    }]
  }
}]

resource hub 'Microsoft.Network/virtualNetworks@2023-04-01' = {
  name: 'hub'
  location: location
  properties: {
    addressSpace: { addressPrefixes: [ space ] }
  }

  resource parts 'subnets' = [for (subnet, i) in subnets: {
    name: subnet.name
    properties: {
      addressPrefix: '${prefix}.${i}.0/24'
      networkSecurityGroup: { id: groups[i].id }
    }
  }]
}

resource others 'Microsoft.Network/virtualNetworks@2023-04-01' = [for spoke in spokes: {
  name: 'net-${spoke}'
  location: location
  properties: {}
}]

resource peerings 'Microsoft.Network/virtualNetworks/virtualNetworkPeerings@2023-04-01' = [for (spoke, i) in spokes: {
  parent: hub
  name: 'to-${spoke}'
  properties: {
    remoteVirtualNetwork: { id: others[i].id }
  }
}]

output hub string = hub.id
output prefixes array = [for (subnet, i) in subnets: hub::parts[i].properties.addressPrefix]
output rules int = length(groups[0].properties.securityRules)
output state string = peerings[1].properties.provisioningState
output peers array = [for (spoke, i) in spokes: last(split(peerings[i].properties.remoteVirtualNetwork.id, '/'))]"#;

#[test]
fn network(rt: HostRuntime) -> Result<(), Fail> {
    let wanted = r#"0 Succeeded hub
hub="§Microsoft.Network/virtualNetworks/hub"
peers=["net-north","net-south"]
prefixes=["10.20.0.0/24","10.20.1.0/24"]
rules=2
state="Succeeded""#;
    check_run(
        &rt,
        rt.alloc(),
        ("deploy main.bicep --group g --name hub", NETWORK, wanted),
        NONE,
    )
}

const WEB: &str =
    r#"// Web sites on plans of their own, their common store and, in production, a backup.
@allowed([ 'dev', 'prod' ])
param stage string
param apps array
@secure()
param password string

var isProd = stage == 'prod'
var tags = {
  stage: stage
  by: deployment().name
}

// The store of the site is declared in a module, and its state is read here.
resource files 'Microsoft.Storage/storageAccounts@2023-01-01' existing = {
  name: 'shopfiles'
}

module store 'modules/store.bicep' = {
  name: 'store'
  params: {
    name: files.name
    tags: tags
  }
}

module sites 'modules/site.bicep' = [for (app, i) in apps: {
  name: 'site-${app.name}'
  params: {
    name: app.name
    isLarge: isProd && i == 0
    settings: [
      { name: 'STAGE', value: stage }
      { name: 'FILES', value: store.outputs.files }
      { name: 'PASSWORD', value: password }
    ]
  }
}]

resource backup 'Demo.Lab/backups@2024-01-01' = if (isProd) {
  name: 'nightly'
  tags: tags
  properties: {
    of: [for (app, i) in apps: sites[i].outputs.id]
  }
}

output backup string = isProd ? backup.properties.of[0] : 'none'
output files string = files.properties.primaryEndpoints.blob
output hosts array = [for (app, i) in apps: sites[i].outputs.host]
output kind string = files.kind
output plans array = [for (app, i) in apps: sites[i].outputs.size]
--- modules/store.bicep
// The store of a site.
param name string
param tags object

resource account 'Microsoft.Storage/storageAccounts@2023-01-01' = {
  name: name
  location: resourceGroup().location
  kind: 'StorageV2'
  sku: { name: 'Standard_LRS' }
  tags: union(tags, { tier: 'data' })

  resource blobs 'blobServices' = {
    name: 'default'
    properties: { isVersioningEnabled: true }
  }
}

output files string = account.properties.primaryEndpoints.file
output isVersioned bool = account::blobs.properties.isVersioningEnabled
--- modules/site.bicep
// A site on a plan of its own.
param name string
param isLarge bool
param settings array

module plan 'plan.bicep' = {
  name: 'plan-${name}'
  params: {
    name: name
    size: isLarge ? 'P1v3' : 'B1'
  }
}

resource site 'Microsoft.Web/sites@2022-09-01' = {
  name: name
  location: resourceGroup().location
  properties: {
    serverFarmId: plan.outputs.id
    host: '${name}.example.com'
    siteConfig: { appSettings: settings }
  }
}

output host string = site.properties.host
output id string = site.id
output size string = plan.outputs.size
--- modules/plan.bicep
// The plan of a site.
param name string
param size string

resource plan 'Microsoft.Web/serverfarms@2022-09-01' = {
  name: 'plan-${name}'
  location: resourceGroup().location
  sku: { name: size }
}

output id string = plan.id
output size string = plan.sku.name
--- parameters.json
{
  "$schema": "https://schema.management.azure.com/schemas/2019-04-01/deploymentParameters.json#",
  "contentVersion": "1.0.0.0",
  "parameters": {
    "stage": { "value": "prod" },
    "apps": { "value": [ { "name": "shop" }, { "name": "blog" } ] },
    "password": { "value": "it is secret" }
  }
}"#;

#[test]
fn web(rt: HostRuntime) -> Result<(), Fail> {
    let wanted = r#"0 Succeeded first
backup="§Microsoft.Web/sites/shop"
files="https://shopfiles.blob.core.windows.net/"
hosts=["shop.example.com","blog.example.com"]
kind="StorageV2"
plans=["P1v3","B1"]"#;
    check_run(
        &rt,
        rt.alloc(),
        (
            "deploy main.bicep --group g --name first --parameters parameters.json",
            WEB,
            wanted,
        ),
        NONE,
    )
}

const BATCHES: &str =
    r#"// Five machines, at most two of them at a time, and a balancer after all of them.
param count int = 5

@batchSize(2)
resource machines 'Demo.Lab/machines@2024-01-01' = [for i in range(1, count): {
  name: 'm${i}'
  number: i
  isSpare: i == count
}]

resource balancer 'Demo.Lab/balancers@2024-01-01' = {
  name: 'front'
  targets: [ machines[0].name, machines[count - 1].name ]
  first: machines[0].id
}

output names array = [for (number, i) in range(1, count): machines[i].name]
output spare bool = machines[count - 1].isSpare
output targets array = balancer.targets"#;

#[test]
fn batches(rt: HostRuntime) -> Result<(), Fail> {
    let wanted = r#"0 Succeeded five
names=["m1","m2","m3","m4","m5"]
spare=true
targets=["m1","m5"]"#;
    check_run(
        &rt,
        rt.alloc(),
        ("deploy main.bicep --group g --name five", BATCHES, wanted),
        NONE,
    )
}
