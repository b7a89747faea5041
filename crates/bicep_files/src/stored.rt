// Files of what is stored: accounts, vaults, databases, logs and images.

use crate::sample::Sample;

/// A storage account with containers in a loop, two resources deep.
pub const STORAGE: &str = "@description('The place of the account.')
param location string = resourceGroup().location

@minLength(3)
@maxLength(11)
param prefix string

@allowed([
  'Standard_LRS'
  'Standard_GRS'
  'Standard_ZRS'
])
param sku string = 'Standard_LRS'

param containers array = [
  'raw'
  'clean'
]

var accountName = toLower('${prefix}${uniqueString(resourceGroup().id)}')

resource account 'Microsoft.Storage/storageAccounts@2023-01-01' = {
  name: accountName
  location: location
  sku: {
    name: sku
  }
  kind: 'StorageV2'
  properties: {
    accessTier: 'Hot'
    minimumTlsVersion: 'TLS1_2'
    allowBlobPublicAccess: false
    networkAcls: {
      bypass: 'AzureServices'
      defaultAction: 'Deny'
      ipRules: []
    }
  }

  resource blobs 'blobServices' = {
    name: 'default'
    properties: {
      deleteRetentionPolicy: {
        enabled: true
        days: 7
      }
    }

    resource boxes 'containers' = [for name in containers: {
      name: name
      properties: {
        publicAccess: 'None'
      }
    }]
  }
}

output endpoint string = account.properties.primaryEndpoints.blob
output retention int = account::blobs.properties.deleteRetentionPolicy.days
";

const STORAGE_PARTS: &str = "\
param prefix @ => @minLength(3) @maxLength(11)
param sku @ => @allowed(['Standard_LRS', 'Standard_GRS', 'Standard_ZRS'])
var accountName => toLower('${prefix}${uniqueString(resourceGroup().id)}')
resource account properties.networkAcls => { bypass: 'AzureServices', defaultAction: 'Deny', \
    ipRules: [] }
resource account blobs.boxes => 'containers' = [for name in containers: {..}]
output retention => int = account::blobs.properties.deleteRetentionPolicy.days
";

/// A key vault whose access policies are made in a loop, and a secret in it.
pub const VAULT: &str = "// Secrets of the shop, and who may read them.
param name string = 'kv-${uniqueString(subscription().id, resourceGroup().id)}'
param tenantId string = subscription().tenantId
param readers array = []
@secure()
param connection string

var policies = [for reader in readers: {
  tenantId: tenantId
  objectId: reader
  permissions: {
    secrets: [ 'get', 'list' ]
    certificates: []
  }
}]

resource vault 'Microsoft.KeyVault/vaults@2023-07-01' = {
  name: name
  location: resourceGroup().location
  tags: {
    displayName: 'Secrets of the shop'
    'cost-center': '4711'
  }
  properties: {
    sku: { family: 'A', name: 'standard' }
    tenantId: tenantId
    enableSoftDelete: true
    softDeleteRetentionInDays: 90
    // Without this a vault can be purged in the first ninety days.
    enablePurgeProtection: true
    accessPolicies: concat(policies, [
      {
        tenantId: tenantId
        objectId: '0c7d4b52-6a3b-4d0e-9d5f-3f6f4f1b9a10'
        permissions: { secrets: [ 'all' ] }
      }
    ])
  }
}

resource secret 'Microsoft.KeyVault/vaults/secrets@2023-07-01' = {
  parent: vault
  name: 'shop-connection'
  properties: {
    value: connection
    attributes: {
      enabled: true
      exp: 1798761600
    }
  }
}

output uri string = vault.properties.vaultUri
output secretUri string = '${vault.properties.vaultUri}secrets/${secret.name}'
";

const VAULT_PARTS: &str = "\
param name => string = 'kv-${uniqueString(subscription().id, resourceGroup().id)}'
param connection @ => @secure()
var policies permissions.secrets => ['get', 'list']
resource vault tags => { displayName: 'Secrets of the shop', 'cost-center': '4711' }
resource vault properties.accessPolicies.1.0.permissions => { secrets: ['all'] }
output secretUri => string = '${vault.properties.vaultUri}secrets/${secret.name}'
";

/// A database account with its databases in a serial loop, and a container of the first.
pub const COSMOS: &str = "/*
  One account and its databases.
  The throughput is shared by the containers of a database.
*/
param accountName string
param location string = resourceGroup().location
param regions array = [ 'westeurope', 'northeurope' ]
param dbs array

@minValue(400)
@maxValue(1000000)
param throughput int = 400

resource account 'Microsoft.DocumentDB/databaseAccounts@2023-04-15' = {
  name: toLower(accountName)
  location: location
  kind: 'GlobalDocumentDB'
  properties: {
    databaseAccountOfferType: 'Standard'
    consistencyPolicy: {
      defaultConsistencyLevel: 'BoundedStaleness'
      maxStalenessPrefix: 100000
      maxIntervalInSeconds: 5 * 60
    }
    locations: [for (region, i) in regions: {
      locationName: region
      failoverPriority: i
      isZoneRedundant: i == 0 && length(regions) > 1
    }]
    capabilities: throughput == 400 ? [ { name: 'EnableServerless' } ] : []
  }
}

@batchSize(2)
resource stores 'Microsoft.DocumentDB/databaseAccounts/sqlDatabases@2023-04-15' = [for d in dbs: {
  parent: account
  name: d.name
  properties: {
    resource: { id: d.name }
    options: { throughput: d.?throughput ?? throughput }
  }
}]

resource orders 'Microsoft.DocumentDB/databaseAccounts/sqlDatabases/containers@2023-04-15' = {
  parent: stores[0]
  name: 'orders'
  properties: {
    resource: {
      id: 'orders'
      partitionKey: { paths: [ '/customer/id' ], kind: 'Hash' }
      defaultTtl: -1
    }
  }
}

output endpoint string = account.properties.documentEndpoint
";

const COSMOS_PARTS: &str = "\
param throughput @ => @minValue(400) @maxValue(1000000)
resource account properties.locations => [for (region, i) in regions: { locationName: region, \
    failoverPriority: i, isZoneRedundant: {{i == 0} && {length(regions) > 1}} }]
resource account properties.consistencyPolicy.maxIntervalInSeconds => {5 * 60}
resource account properties.capabilities => {{throughput == 400} ? [{ name: 'EnableServerless' }] \
    : []}
resource stores => 'Microsoft.DocumentDB/databaseAccounts/sqlDatabases@2023-04-15' = [for d in \
    dbs: {..}]
resource stores properties.options => { throughput: {d.?throughput ?? throughput} }
resource orders parent => stores[0]
resource orders properties.resource => { id: 'orders', partitionKey: { paths: ['/customer/id'], \
    kind: 'Hash' }, defaultTtl: {-1} }
";

/// A database server with firewall rules, one of them in a loop with a condition.
pub const SQL: &str = "@sys.description('The name of the administrator.')
param login string

@sys.description('Kept in the vault, and given by the pipeline.')
@sys.secure()
param password string

param officeAddresses array = []
param elastic bool = false

var location = resourceGroup().location

resource server 'Microsoft.Sql/servers@2022-05-01-preview' = {
  name: 'sql-${uniqueString(resourceGroup().id)}'
  location: location
  properties: {
    administratorLogin: login
    administratorLoginPassword: password
    minimalTlsVersion: '1.2'
    version: '12.0'
  }

  resource azure 'firewallRules' = {
    name: 'AllowAllWindowsAzureIps'
    properties: { startIpAddress: '0.0.0.0', endIpAddress: '0.0.0.0' }
  }

  resource offices 'firewallRules' = [for (address, i) in officeAddresses: if (!empty(address)) {
    name: 'office-${padLeft(i + 1, 2, '0')}'
    properties: {
      startIpAddress: address
      endIpAddress: address
    }
  }]

  @description('The database of the shop.')
  resource shop 'databases' = {
    name: 'shop'
    location: location
    sku: elastic
      ? { name: 'ElasticPool' }
      : {
          name: 'S1'
          tier: 'Standard'
        }
    properties: {
      collation: 'SQL_Latin1_General_CP1_CI_AS'
      maxSizeBytes: 250 * 1024 * 1024 * 1024
    }
  }
}

output host string = server.properties.fullyQualifiedDomainName
output database string = server::shop.name
";

const SQL_PARTS: &str = "\
param password @ => @sys.description('Kept in the vault, and given by the pipeline.') @sys.secure()
resource server => 'Microsoft.Sql/servers@2022-05-01-preview' = {..}
resource server offices => 'firewallRules' = [for (address, i) in officeAddresses: if \
    ({!empty(address)}) {..}]
resource server offices.name => 'office-${padLeft({i + 1}, 2, '0')}'
resource server shop.@ => @description('The database of the shop.')
resource server shop.sku => {elastic ? { name: 'ElasticPool' } : { name: 'S1', tier: 'Standard' }}
resource server shop.properties.maxSizeBytes => {{{250 * 1024} * 1024} * 1024}
output database => string = server::shop.name
";

/// A workspace for logs, and what a site sends to it.
pub const LOGS: &str = "param workspaceName string
param retention int = 30
param packs array = [ 'SecurityInsights', 'VMInsights' ]

resource site 'Microsoft.Web/sites@2022-09-01' existing = {
  name: 'shop'
}

resource workspace 'Microsoft.OperationalInsights/workspaces@2022-10-01' = {
  name: workspaceName
  location: resourceGroup().location
  properties: {
    sku: { name: 'PerGB2018' }
    retentionInDays: max(retention, 30)
    workspaceCapping: { dailyQuotaGb: retention > 90 ? 5 : -1 }
  }
}

#disable-next-line use-recent-api-versions
resource pack 'Microsoft.OperationsManagement/solutions@2015-11-01-preview' = [for p in packs: {
  name: '${p}(${workspace.name})'
  location: workspace.location
  plan: {
    name: '${p}(${workspace.name})'
    product: 'OMSGallery/${p}'
    publisher: 'Microsoft'
    promotionCode: ''
  }
  properties: { workspaceResourceId: workspace.id }
}]

resource diagnostics 'Microsoft.Web/sites/providers/diagnosticSettings@2021-05-01-preview' = {
  name: '${site.name}/Microsoft.Insights/to-workspace'
  properties: {
    workspaceId: workspace.id
    logs: [for category in [ 'AppServiceHTTPLogs', 'AppServiceConsoleLogs' ]: {
      category: category
      enabled: true
    }]
    metrics: [
      {
        category: 'AllMetrics'
        enabled: true
        timeGrain: null
      }
    ]
  }
}

output customerId string = workspace.properties.customerId
";

const LOGS_PARTS: &str = "\
resource site => 'Microsoft.Web/sites@2022-09-01' existing = {..}
resource workspace properties.workspaceCapping.dailyQuotaGb => {{retention > 90} ? 5 : {-1}}
resource pack plan.name => '${p}(${workspace.name})'
resource diagnostics name => '${site.name}/Microsoft.Insights/to-workspace'
resource diagnostics properties.logs => [for category in ['AppServiceHTTPLogs', \
    'AppServiceConsoleLogs']: { category: category, enabled: true }]
resource diagnostics properties.metrics.0 => { category: 'AllMetrics', enabled: true, timeGrain: \
    null }
";

/// A registry of images with its copies, and who may pull from it.
pub const REGISTRY: &str = "param name string
param replicas array = []
param pullers array = [] // principals that may pull
param isPremium bool = !empty(replicas)

var pullRole = '7f951dda-4ed3-4680-a7ca-43fe172d538d'

resource registry 'Microsoft.ContainerRegistry/registries@2023-07-01' = {
  name: replace(name, '-', '')
  location: resourceGroup().location
  sku: { name: isPremium ? 'Premium' : 'Basic' }
  identity: { type: 'SystemAssigned' }
  properties: {
    adminUserEnabled: false
    zoneRedundancy: isPremium && length(replicas) == 1 ? 'Enabled' : 'Disabled'
    policies: {
      retentionPolicy: { status: isPremium ? 'enabled' : 'disabled', days: 14 }
    }
  }

  resource copies 'replications' = [for r in replicas: if (isPremium && r != 'global') {
    name: r
    location: r
    properties: {}
  }]
}

resource pulls 'Microsoft.ContainerRegistry/registries/providers/roleAssignments@2022-04-01' = [for p in pullers: {
  name: '${registry.name}/Microsoft.Authorization/${guid(registry.id, p.id, pullRole)}'
  properties: {
    principalId: p.id
    principalType: p.?kind ?? 'ServicePrincipal'
    roleDefinitionId: subscriptionResourceId('Microsoft.Authorization/roleDefinitions', pullRole)
  }
}]

output server string = registry.properties.loginServer
output principal string = registry.identity.principalId
";

const REGISTRY_PARTS: &str = "\
param isPremium => bool = {!empty(replicas)}
resource registry properties.zoneRedundancy => {{isPremium && {length(replicas) == 1}} ? 'Enabled' \
    : 'Disabled'}
resource registry copies => 'replications' = [for r in replicas: if ({isPremium && {r != \
    'global'}}) {..}]
resource registry copies.properties => {}
resource pulls name => '${registry.name}/Microsoft.Authorization/${guid(registry.id, p.id, \
    pullRole)}'
resource pulls properties => { principalId: p.id, principalType: {p.?kind ?? 'ServicePrincipal'}, \
    roleDefinitionId: subscriptionResourceId('Microsoft.Authorization/roleDefinitions', pullRole) }
";

/// The files, with what each declares and some of its parts.
pub const SAMPLES: [Sample; 6] = [
    (
        STORAGE,
        "8: param location, param prefix, param sku, param containers, var accountName, \
         resource account, output endpoint, output retention",
        STORAGE_PARTS,
    ),
    (
        VAULT,
        "9: param name, param tenantId, param readers, param connection, var policies, \
         resource vault, resource secret, output uri, output secretUri",
        VAULT_PARTS,
    ),
    (
        COSMOS,
        "9: param accountName, param location, param regions, param dbs, param throughput, \
         resource account, resource stores, resource orders, output endpoint",
        COSMOS_PARTS,
    ),
    (
        SQL,
        "8: param login, param password, param officeAddresses, param elastic, var location, \
         resource server, output host, output database",
        SQL_PARTS,
    ),
    (
        LOGS,
        "8: param workspaceName, param retention, param packs, resource site, resource workspace, \
         resource pack, resource diagnostics, output customerId",
        LOGS_PARTS,
    ),
    (
        REGISTRY,
        "9: param name, param replicas, param pullers, param isPremium, var pullRole, \
         resource registry, resource pulls, output server, output principal",
        REGISTRY_PARTS,
    ),
];
