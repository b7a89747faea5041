// Files that put others together, and files of what holds for all of a deployment.

use crate::sample::Sample;

/// A main file whose modules take outputs of one another.
pub const MODULES: &str = "targetScope = 'resourceGroup'

@description('The short name of the stage.')
@allowed([
  'dev'
  'test'
  'prod'
])
param stage string

@description('What the stage is called in names, with its region.')
param suffix string = '${stage}-${resourceGroup().location}'

@secure()
@minLength(12)
param sqlPassword string

var tags = {
  stage: stage
  owner: 'platform'
  deployedBy: deployment().name
}

module network 'modules/network.bicep' = {
  name: 'network-${suffix}'
  params: {
    name: 'vnet-${suffix}'
    prefixes: [ '10.1.0.0/16' ]
    tags: tags
  }
}

module database 'modules/database.bicep' = if (stage != 'dev') {
  name: 'database-${suffix}'
  params: {
    subnetId: network.outputs.subnetIds[1]
    password: sqlPassword
    tags: union(tags, { tier: 'data' })
  }
}

@batchSize(3)
module apps 'modules/app.bicep' = [for (app, i) in [ 'shop', 'blog' ]: {
  name: '${app}-${suffix}'
  params: {
    appName: app
    slot: i
    settings: [
      {
        name: 'DATABASE'
        value: stage == 'dev' ? 'local' : database.outputs.host
      }
      { name: 'STAGE', value: toUpper(stage) }
    ]
    tags: tags
  }
}]

output hosts array = [for i in range(0, 2): apps[i].outputs.host]
output networkId string = network.outputs.id
";

const MODULES_PARTS: &str = "\
param stage @ => @description('The short name of the stage.') @allowed(['dev', 'test', 'prod'])
param suffix => string = '${stage}-${resourceGroup().location}'
module network => 'modules/network.bicep' = {..}
module network params => { name: 'vnet-${suffix}', prefixes: ['10.1.0.0/16'], tags: tags }
module database => 'modules/database.bicep' = if ({stage != 'dev'}) {..}
module database params.tags => union(tags, { tier: 'data' })
module apps @ => @batchSize(3)
module apps => 'modules/app.bicep' = [for (app, i) in ['shop', 'blog']: {..}]
module apps params.settings.0.value => {{stage == 'dev'} ? 'local' : database.outputs.host}
output hosts => array = [for i in range(0, 2): apps[i].outputs.host]
";

/// A module for each region, and a profile before all of them.
pub const REGIONS: &str = "metadata owner = 'web team'
metadata version = { major: 2, minor: 1 }

param regions array
param weights object = {}
param names object = {
  westeurope: 'we'
  northeurope: 'ne'
}

var primary = first(regions)
var spares = skip(regions, 1)
var short = [for region in regions: names[?region] ?? take(region, 3)]

module stamps 'stamp.bicep' = [for (region, i) in regions: {
  name: 'stamp-${short[i]}'
  params: {
    location: region
    isPrimary: region == primary
    count: i == 0 ? 3 : 1
    peers: intersection(regions, spares)
  }
}]

resource profile 'Microsoft.Network/trafficManagerProfiles@2022-04-01' = {
  name: 'tm-shop'
  location: 'global'
  properties: {
    trafficRoutingMethod: empty(weights) ? 'Priority' : 'Weighted'
    dnsConfig: { relativeName: 'shop-${uniqueString(resourceGroup().id)}', ttl: 30 }
    monitorConfig: { protocol: 'HTTPS', port: 443, path: '/alive' }
    endpoints: [for (region, i) in regions: {
      name: short[i]
      type: 'Microsoft.Network/trafficManagerProfiles/azureEndpoints'
      properties: {
        targetResourceId: stamps[i].outputs.appId
        priority: i + 1
        weight: weights[?region] ?? 100 / length(regions)
        endpointStatus: 'Enabled'
      }
    }]
  }
  dependsOn: [
    stamps
  ]
}

output names array = [for (region, i) in regions: { region: region, short: short[i] }]
output spareCount int = length(spares)
output first object = stamps[0].outputs.summary!
";

const REGIONS_PARTS: &str = "\
metadata version => { major: 2, minor: 1 }
var short => [for region in regions: {names[?region] ?? take(region, 3)}]
module stamps params.isPrimary => {region == primary}
module stamps params.count => {{i == 0} ? 3 : 1}
resource profile properties.endpoints.properties.weight => {weights[?region] ?? {100 / \
    length(regions)}}
resource profile dependsOn => [stamps]
output first => object = stamps[0].outputs.summary!
";

/// Who may do what with a vault, and a lock on it.
pub const ROLES: &str = "param principals array
param vaultName string
@allowed([ 'User', 'Group', 'ServicePrincipal' ])
param principalType string = 'ServicePrincipal'

var roles = {
  reader: 'acdd72a7-3385-48ef-bd42-f606fba81ae7'
  secrets: '4633458b-17de-408a-b874-0445c86b69e6'
}
var isGiven = length(principals) > 0 && principals[0] != ''

resource vault 'Microsoft.KeyVault/vaults@2023-07-01' existing = {
  name: vaultName
}

// The name of an assignment is a guid of all that it is made of, so that it can be put again.
resource readers 'Microsoft.Authorization/roleAssignments@2022-04-01' = [for p in principals: {
  name: guid(resourceGroup().id, p, roles.reader)
  properties: {
    principalId: p
    principalType: principalType
    roleDefinitionId: subscriptionResourceId(
      'Microsoft.Authorization/roleDefinitions',
      roles.reader
    )
  }
}]

resource secrets 'Microsoft.KeyVault/vaults/providers/roleAssignments@2022-04-01' = if (isGiven) {
  name: '${vault.name}/Microsoft.Authorization/${guid(vault.id, principals[0], roles['secrets'])}'
  properties: {
    principalId: principals[0]
    principalType: principalType
    roleDefinitionId: resourceId('Microsoft.Authorization/roleDefinitions', roles['secrets'])
    description: 'Given to ${principals[0]} on ${vault.name}, by ${deployment().name}.'
  }
}

resource lock 'Microsoft.KeyVault/vaults/providers/locks@2020-05-01' = {
  name: '${vault.name}/Microsoft.Authorization/keep-${vaultName}'
  properties: {
    level: 'CanNotDelete'
    notes: 'Secrets are kept.'
  }
}

output assignments array = [for (p, i) in principals: { principal: p, id: readers[i].id }]
";

const ROLES_PARTS: &str = "\
var isGiven => {{length(principals) > 0} && {principals[0] != ''}}
resource readers name => guid(resourceGroup().id, p, roles.reader)
resource readers properties.roleDefinitionId => \
    subscriptionResourceId('Microsoft.Authorization/roleDefinitions', roles.reader)
resource secrets => 'Microsoft.KeyVault/vaults/providers/roleAssignments@2022-04-01' = if (isGiven) \
    {..}
resource secrets name => '${vault.name}/Microsoft.Authorization/${guid(vault.id, principals[0], \
    roles['secrets'])}'
resource secrets properties.description => 'Given to ${principals[0]} on ${vault.name}, by \
    ${deployment().name}.'
output assignments => array = [for (p, i) in principals: { principal: p, id: readers[i].id }]
";

/// Rules for tags and a budget, with metadata and members that are called as words of the language.
pub const GUARD: &str = "targetScope = 'resourceGroup'

metadata name = 'Guard rails'
metadata summary = {
  author: 'platform'
  reviewed: true
  pages: [ 1, 2 ]
  nothing: null
}

@description('''
The tags that each resource must have.
A tag's name counts by its letters alone.
''')
param requiredTags array = [ 'owner', 'stage' ]

@description('The day of the month from which money is counted.')
@metadata({
  example: 1
  unit: 'day'
})
param startDay int = 1

param contacts array
param enforce bool = false

#disable-next-line no-hardcoded-location
var place = 'westeurope'

resource rule 'Microsoft.Authorization/policyDefinitions@2021-06-01' = [for tag in requiredTags: {
  name: 'require-${tag}'
  properties: {
    policyType: 'Custom'
    mode: 'Indexed'
    policyRule: {
      if: { field: '[concat(\\'tags[\\', parameters(\\'tag\\'), \\']\\')]', exists: false }
      then: { effect: enforce ? 'deny' : 'audit' }
    }
    parameters: { tag: { type: 'String', defaultValue: tag } }
  }
}]

resource budget 'Microsoft.Consumption/budgets@2021-10-01' = {
  name: 'month'
  properties: {
    category: 'Cost'
    amount: 100 * length(requiredTags)
    timeGrain: 'Monthly'
    timePeriod: { startDate: '2024-01-${padLeft(startDay, 2, '0')}' }
    notifications: {
      'over-80': {
        enabled: true
        operator: 'GreaterThan'
        threshold: 80
        contactEmails: [for contact in contacts: toLower(contact.mail)]
      }
    }
  }
}

output rules array = [for (tag, i) in requiredTags: rule[i].id]
output place string = place
";

const GUARD_PARTS: &str = "\
metadata summary => { author: 'platform', reviewed: true, pages: [1, 2], nothing: null }
param requiredTags @ => @description('The tags that each resource must have.\\nA tag\\'s name \
    counts by its letters alone.\\n')
param startDay @ => @description('The day of the month from which money is counted.') @metadata({ \
    example: 1, unit: 'day' })
resource rule properties.policyRule.if => { field: '[concat(\\'tags[\\', parameters(\\'tag\\'), \
    \\']\\')]', exists: false }
resource rule properties.policyRule.then => { effect: {enforce ? 'deny' : 'audit'} }
resource budget properties.timePeriod.startDate => '2024-01-${padLeft(startDay, 2, '0')}'
resource budget properties.notifications.over-80.contactEmails => [for contact in contacts: \
    toLower(contact.mail)]
";

/// The files, with what each declares and some of its parts.
pub const SAMPLES: [Sample; 4] = [
    (
        MODULES,
        "10: targetScope, param stage, param suffix, param sqlPassword, var tags, module network, \
         module database, module apps, output hosts, output networkId",
        MODULES_PARTS,
    ),
    (
        REGIONS,
        "13: metadata owner, metadata version, param regions, param weights, param names, \
         var primary, var spares, var short, module stamps, resource profile, output names, \
         output spareCount, output first",
        REGIONS_PARTS,
    ),
    (
        ROLES,
        "10: param principals, param vaultName, param principalType, var roles, var isGiven, \
         resource vault, resource readers, resource secrets, resource lock, output assignments",
        ROLES_PARTS,
    ),
    (
        GUARD,
        "12: targetScope, metadata name, metadata summary, param requiredTags, param startDay, \
         param contacts, param enforce, var place, resource rule, resource budget, output rules, \
         output place",
        GUARD_PARTS,
    ),
];
