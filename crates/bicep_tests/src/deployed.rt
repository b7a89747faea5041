// Bicep files as they are deployed, with the number of their statements.

/// Resources, modules and what they need.
pub const HOSTS: &str = "\
§@description('Where the account stands.')
param location string = resourceGroup().location

@minLength(3)
@maxLength(24)
param name string = 'st${uniqueString(resourceGroup().id)}'

resource account 'Microsoft.Storage/storageAccounts@2023-01-01' = {
  name: name
  location: location
  sku: {
    name: 'Standard_LRS'
  }
  kind: 'StorageV2'
  properties: {
    minimumTlsVersion: 'TLS1_2'
    allowBlobPublicAccess: false
  }
}

output id string = account.id
output blob string = account.properties.primaryEndpoints.blob
 => 5
§param subnets array = [
  { name: 'web', prefix: '10.0.0.0/24' }
  { name: 'data', prefix: '10.0.1.0/24' }
]

resource network 'Microsoft.Network/virtualNetworks@2023-04-01' = {
  name: 'hub'
  location: 'westeurope'
  properties: {
    addressSpace: { addressPrefixes: [ '10.0.0.0/16' ] }
    subnets: [for (subnet, i) in subnets: {
      name: '${subnet.name}-${i}'
      properties: { addressPrefix: subnet.prefix }
    }]
  }
}
 => 2
§resource plan 'Microsoft.Web/serverfarms@2022-09-01' = {
  name: 'plan'
  location: resourceGroup().location
  sku: { name: 'B1', tier: 'Basic', capacity: 1, }
}

resource site 'Microsoft.Web/sites@2022-09-01' = {
  name: 'site-${toLower(plan.name)}'
  location: plan.location
  properties: {
    serverFarmId: plan.id
    siteConfig: {
      appSettings: [
        {
          name: 'MODE'
          value: 'fast'
        }
      ]
    }
  }

  resource config 'config' = {
    name: 'web'
    properties: { alwaysOn: true }
  }
}

output host string = 'https://${site.properties.defaultHostName}/'
 => 3
§targetScope = 'resourceGroup'

module network './network.bicep' = {
  name: 'network'
  params: {
    prefix: '10.1.0.0/16'
    tags: { owner: 'ops' }
  }
}

module apps './app.bicep' = [for i in range(0, 3): {
  name: 'app-${i}'
  params: { subnet: network.outputs.subnetId, index: i }
}]

output names array = [for i in range(0, 3): apps[i].outputs.name]
 => 4
§param deploy bool = true
param zones array = []

resource address 'Microsoft.Network/publicIPAddresses@2023-04-01' = if (deploy && !empty(zones)) {
  name: 'pip'
  location: 'westeurope'
  zones: zones
}

resource disks 'Microsoft.Compute/disks@2023-04-02' = [for (z, i) in zones: if (z != '2') {
  name: 'disk-${i}'
  location: 'westeurope'
  zones: [ z ]
}]
 => 4
§resource vault 'Microsoft.KeyVault/vaults@2023-07-01' existing = {
  name: 'vault'
}

resource secret 'Microsoft.KeyVault/vaults/secrets@2023-07-01' = {
  parent: vault
  name: 'secret'
  properties: {
    value: 'x'
  }
  dependsOn: [
    vault
  ]
}
 => 2
§resource server 'Microsoft.Sql/servers@2022-05-01' = {
  name: 'sql'
  location: 'westeurope'

  @description('One of two.')
  resource first 'databases' = {
    name: 'one'
    location: server.location

    resource policy 'backupShortTermRetentionPolicies' = {
      name: 'default'
      properties: { retentionDays: 7 }
    }
  }

  @batchSize(1)
  resource others 'databases' = [for n in [ 'two', 'three' ]: {
    name: n
    location: server.location
  }]
}

output policy string = server::first::policy.name
 => 2
";

/// Files that show kinds of statements and expressions.
pub const STATEMENTS: &str = "\
§@secure()
@description('''
The password.
It is never written.
''')
param password string

@allowed([
  'dev'
  'prod'
])
param stage string = 'dev'

@sys.minValue(1)
@sys.maxValue(10)
param count int = 2
 => 3
§var script = '''
#!/bin/sh
echo \"${HOME}\"
'''
var lines = length(split(script, '\\n'))
var escaped = 'it\\'s \\${not} a hole \\u{1F600}'
 => 3
§param stage string
var isProd = stage == 'prod'
var sku = isProd ? 'P1v3' : stage == 'test'
  ? 'S1'
  : 'B1'
var size = isProd
  ? 3
  : 1
var tags = {
  stage: stage
  'cost-center': isProd ? 1200 : 1300
  merged: union({ a: 1 }, {
    b: 2
  })
}
 => 5
§metadata author = 'ops'
metadata info = { version: 3, tags: [ 'a', 'b' ] }
// A comment.
/* Another,
   over lines. */
var x = 1 // one

#disable-next-line no-unused-vars
var y = 2
 => 4
§param settings object
var name = settings.?name ?? 'none'
var first = settings.list[0]!.id
var safe = settings.list[?3].?id
var not = !contains(settings, 'a') || !(length(settings.list) >= 3)
var sum = (1 + 2) * -3 % 4 - 5 / 6
var same = 'A' =~ 'a' && 'a' !~ 'b'
var keys = az.listKeys(settings.id, '2023-01-01').keys[0].value
 => 8
§var nested = [
  [
    1
    2
  ], [ 3, 4 ]

  {}
  []
]
var text = 'a${b}${'c${d}e'}f'
var b = ''
var d = true
 => 4
§resource lock 'Microsoft.Authorization/locks@2020-05-01' = {
  name: 'lock'
  scope: account
  properties: { level: 'CanNotDelete', notes: 'Kept.' }
}
resource account 'Microsoft.Storage/storageAccounts@2023-01-01' existing = { name: 'st' }
output when string = account.properties.creationTime
output resource string = 'resource'
output all array = [for (x, i) in split('a,b', ','): { name: x, at: i }] => 5
";
