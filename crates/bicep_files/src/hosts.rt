// Files of what runs: sites, functions, containers, machines, clusters, and queues between them.

use crate::sample::Sample;

/// A site with its plan, and two parts of its configuration inside.
pub const SITE: &str = "@description('The name of the app, from which the others are made.')
@minLength(2)
param appName string

@allowed([ 'F1', 'B1', 'P1v3' ])
param skuName string = 'B1'
param runtime string = 'DOTNETCORE|8.0'
param settings object = {}

var base = {
  WEBSITE_RUN_FROM_PACKAGE: '1'
  ASPNETCORE_ENVIRONMENT: skuName == 'P1v3' ? 'Production' : 'Staging'
}

resource plan 'Microsoft.Web/serverfarms@2022-09-01' = {
  name: 'plan-${appName}'
  location: resourceGroup().location
  sku: { name: skuName, capacity: skuName == 'F1' ? 1 : 2 }
  kind: 'linux'
  properties: { reserved: true }
}

resource site 'Microsoft.Web/sites@2022-09-01' = {
  name: 'app-${appName}'
  location: resourceGroup().location
  identity: { type: 'SystemAssigned' }
  properties: {
    serverFarmId: plan.id
    httpsOnly: true
    siteConfig: {
      linuxFxVersion: runtime
      alwaysOn: !(skuName == 'F1')
      ftpsState: 'Disabled'
      cors: {
        allowedOrigins: [
          'https://portal.azure.com'
          'https://${appName}.example.com'
        ]
      }
    }
  }

  resource appSettings 'config' = {
    name: 'appsettings'
    properties: union(base, settings)
  }

  resource logs 'config' = {
    name: 'logs'
    properties: {
      applicationLogs: { fileSystem: { level: 'Warning' } }
      httpLogs: { fileSystem: { enabled: true, retentionInDays: 7, retentionInMb: 35 } }
    }
    dependsOn: [ appSettings ]
  }
}

output url string = 'https://${site.properties.defaultHostName}'
output principalId string = site.identity.principalId
";

const SITE_PARTS: &str = "\
param appName @ => @description('The name of the app, from which the others are made.') \
    @minLength(2)
var base ASPNETCORE_ENVIRONMENT => {{skuName == 'P1v3'} ? 'Production' : 'Staging'}
resource plan sku => { name: skuName, capacity: {{skuName == 'F1'} ? 1 : 2} }
resource site properties.siteConfig.alwaysOn => {!({skuName == 'F1'})}
resource site properties.siteConfig.cors.allowedOrigins => ['https://portal.azure.com', \
    'https://${appName}.example.com']
resource site appSettings.properties => union(base, settings)
resource site logs.dependsOn => [appSettings]
";

/// A function app whose settings are put together of two lists.
pub const FUNCTIONS: &str = "param name string
param location string = resourceGroup().location
param storageName string
param extra object = {}
@secure()
param accountKey string

var workers = 2

resource account 'Microsoft.Storage/storageAccounts@2023-01-01' existing = { name: storageName }

resource insights 'Microsoft.Insights/components@2020-02-02' = {
  name: '${name}-insights'
  location: location
  kind: 'web'
  properties: {
    Application_Type: 'web'
    'hidden-link': 'none'
  }
}

var connection = join([
  'DefaultEndpointsProtocol=https'
  'AccountName=${account.name}'
  'AccountKey=${accountKey}'
  'EndpointSuffix=core.windows.net'
], ';')

var settings = [
  { name: 'AzureWebJobsStorage', value: connection }
  { name: 'FUNCTIONS_EXTENSION_VERSION', value: '~4' }
  { name: 'FUNCTIONS_WORKER_RUNTIME', value: 'python' }
  { name: 'FUNCTIONS_WORKER_PROCESS_COUNT', value: string(workers * 2 - 1) }
  { name: 'APPINSIGHTS_INSTRUMENTATIONKEY', value: insights.properties.InstrumentationKey }
]
var more = [for pair in items(extra): { name: toUpper(pair.key), value: '${pair.value}' }]

resource app 'Microsoft.Web/sites@2022-09-01' = {
  name: name
  location: location
  kind: 'functionapp,linux'
  tags: {
    'hidden-related:/subscriptions/plan': 'empty'
  }
  properties: {
    httpsOnly: true
    siteConfig: {
      pythonVersion: '3.11'
      appSettings: concat(settings, more)
      functionAppScaleLimit: (extra.?limit ?? 10) * workers
    }
  }

  resource slot 'slots' = if (contains(extra, 'slot') && extra.slot != '') {
    name: extra.slot
    location: location
    properties: { enabled: true }
  }
}

output host string = app.properties.defaultHostName
output slots string = '${az.resourceId('Microsoft.Web/sites', name)}/slots'
";

const FUNCTIONS_PARTS: &str = "\
resource insights properties => { Application_Type: 'web', 'hidden-link': 'none' }
param accountKey @ => @secure()
var connection => join(['DefaultEndpointsProtocol=https', 'AccountName=${account.name}', \
    'AccountKey=${accountKey}', 'EndpointSuffix=core.windows.net'], ';')
var settings 3.value => string({{workers * 2} - 1})
var more => [for pair in items(extra): { name: toUpper(pair.key), value: '${pair.value}' }]
resource app properties.siteConfig.functionAppScaleLimit => {({extra.?limit ?? 10}) * workers}
resource app slot => 'slots' = if ({contains(extra, 'slot') && {extra.slot != ''}}) {..}
output slots => string = '${az.resourceId('Microsoft.Web/sites', name)}/slots'
";

/// A container app that pulls by an identity, with its secrets in a loop.
pub const CONTAINERS: &str = "param environmentId string
param image string
param replicas object = { min: 0, max: 4 }
param secrets array = []
param probes bool = true

var registry = split(image, '/')[0]
var cpu = '0.5'

resource identity 'Microsoft.ManagedIdentity/userAssignedIdentities@2023-01-31' = {
  name: 'id-orders'
  location: resourceGroup().location
}

resource orders 'Microsoft.App/containerApps@2023-05-01' = {
  name: 'orders'
  location: resourceGroup().location
  identity: {
    type: 'UserAssigned'
    userAssignedIdentities: { }
  }
  properties: {
    managedEnvironmentId: environmentId
    configuration: {
      activeRevisionsMode: 'Single'
      ingress: {
        external: true
        targetPort: 8080
        traffic: [ { latestRevision: true, weight: 100 } ]
      }
      registries: [ { server: registry, identity: identity.id } ]
      secrets: [for secret in secrets: {
        name: toLower(secret.name)
        keyVaultUrl: secret.url
        identity: identity.id
      }]
    }
    template: {
      containers: [
        {
          name: 'orders'
          image: image
          resources: { cpu: json(cpu), memory: '1Gi' }
          env: concat([ { name: 'PORT', value: '8080' } ], [
            { name: 'REGION', value: resourceGroup().location }
          ])
          probes: probes ? [
            {
              type: 'Liveness'
              httpGet: { path: '/alive', port: 8080 }
              periodSeconds: 10
            }
          ] : null
        }
      ]
      scale: {
        minReplicas: replicas.min
        maxReplicas: replicas.?max ?? replicas.min + 1
        rules: [ { name: 'http', http: { metadata: { concurrentRequests: '50' } } } ]
      }
    }
  }
}

output url string = 'https://${orders.properties.configuration.ingress.fqdn}'
";

const CONTAINERS_PARTS: &str = "\
param replicas => object = { min: 0, max: 4 }
resource orders identity.userAssignedIdentities => {}
resource orders properties.configuration.secrets => [for secret in secrets: { name: \
    toLower(secret.name), keyVaultUrl: secret.url, identity: identity.id }]
resource orders properties.template.containers.0.env => concat([{ name: 'PORT', value: '8080' }], \
    [{ name: 'REGION', value: resourceGroup().location }])
resource orders properties.template.containers.0.probes => {probes ? [{ type: 'Liveness', httpGet: \
    { path: '/alive', port: 8080 }, periodSeconds: 10 }] : null}
resource orders properties.template.scale.maxReplicas => {replicas.?max ?? {replicas.min + 1}}
";

/// A machine with its card, its disks in a loop, and a script that is run in it.
pub const MACHINE: &str = "param vmName string = 'vm-jump'
param adminName string
@secure()
param publicKey string
param subnetId string
param diskSizes array = [ 64, 128 ]
param inUltra bool = false

var script = '''
#!/bin/bash
set -e
echo \"Hello from ${HOSTNAME}\" > /etc/motd
'''

resource card 'Microsoft.Network/networkInterfaces@2023-04-01' = {
  name: '${vmName}-nic'
  location: resourceGroup().location
  properties: {
    ipConfigurations: [
      {
        name: 'first'
        properties: { subnet: { id: subnetId }, privateIPAllocationMethod: 'Dynamic' }
      }
    ]
  }
}

resource machine 'Microsoft.Compute/virtualMachines@2023-03-01' = {
  name: vmName
  location: resourceGroup().location
  properties: {
    hardwareProfile: { vmSize: inUltra ? 'Standard_E4ds_v5' : 'Standard_B2s' }
    osProfile: {
      computerName: take(vmName, 15)
      adminUsername: adminName
      linuxConfiguration: {
        disablePasswordAuthentication: true
        ssh: {
          publicKeys: [ { path: '/home/${adminName}/.ssh/authorized_keys', keyData: publicKey } ]
        }
      }
    }
    storageProfile: {
      imageReference: {
        publisher: 'Canonical'
        offer: '0001-com-ubuntu-server-jammy'
        sku: '22_04-lts-gen2'
        version: 'latest'
      }
      dataDisks: [for (size, i) in diskSizes: {
        lun: i
        diskSizeGB: size
        createOption: 'Empty'
        managedDisk: { storageAccountType: inUltra && i > 0 ? 'UltraSSD_LRS' : 'Premium_LRS' }
      }]
    }
    networkProfile: { networkInterfaces: [ { id: card.id } ] }
  }

  resource setup 'extensions' = {
    name: 'setup'
    location: resourceGroup().location
    properties: {
      publisher: 'Microsoft.Azure.Extensions'
      type: 'CustomScript'
      typeHandlerVersion: '2.1'
      protectedSettings: { script: base64(script) }
    }
  }
}
";

const MACHINE_PARTS: &str = "\
var script => '#!/bin/bash\\nset -e\\necho \"Hello from \\${HOSTNAME}\" > /etc/motd\\n'
resource machine properties.storageProfile.dataDisks.managedDisk => { storageAccountType: \
    {{inUltra && {i > 0}} ? 'UltraSSD_LRS' : 'Premium_LRS'} }
resource machine properties.osProfile.linuxConfiguration.ssh.publicKeys.0.path => \
    '/home/${adminName}/.ssh/authorized_keys'
resource machine properties.networkProfile => { networkInterfaces: [{ id: card.id }] }
resource machine setup => 'extensions' = {..}
resource machine setup.properties.protectedSettings => { script: base64(script) }
";

/// A cluster whose pools are a loop over the members of an object.
pub const CLUSTER: &str = "param clusterName string
param nodeCounts object = {
  system: 3
  user: 5
}
param version string = ''
param admins array = []
param isPrivate bool = true

resource cluster 'Microsoft.ContainerService/managedClusters@2023-08-01' = {
  name: clusterName
  location: resourceGroup().location
  sku: { name: 'Base', tier: isPrivate ? 'Standard' : 'Free' }
  identity: { type: 'SystemAssigned' }
  properties: {
    kubernetesVersion: empty(version) ? null : version
    dnsPrefix: take('${clusterName}-${uniqueString(resourceGroup().id, clusterName)}', 54)
    enableRBAC: true
    aadProfile: length(admins) > 0 ? {
      managed: true
      adminGroupObjectIDs: admins
    } : null
    agentPoolProfiles: [for pool in items(nodeCounts): {
      name: pool.key
      mode: pool.key =~ 'System' ? 'System' : 'User'
      count: pool.value
      minCount: pool.value / 2 + pool.value % 2
      maxCount: 2 * (pool.value + 1)
      vmSize: 'Standard_D4s_v5'
      availabilityZones: pool.value >= 3 ? [ '1', '2', '3' ] : [ '1' ]
    }]
    apiServerAccessProfile: {
      enablePrivateCluster: isPrivate
      authorizedIPRanges: isPrivate ? null : [
        '198.51.100.0/24'
        '203.0.113.7/32'
      ]
    }
    addonProfiles: {
      azurepolicy: { enabled: true }
      omsagent: {
        enabled: false
        config: null
      }
    }
  }
}

resource quiet 'Microsoft.ContainerService/managedClusters/maintenanceConfigurations@2023-08-01' = {
  parent: cluster
  name: 'default'
  properties: {
    timeInWeek: [ { day: 'Sunday', hourSlots: [ 1, 2, 3 ] } ]
  }
}

output issuer string = cluster.properties.oidcIssuerProfile.?issuerURL ?? ''
";

const CLUSTER_PARTS: &str = "\
param nodeCounts user => 5
resource cluster properties.dnsPrefix => take('${clusterName}-${uniqueString(resourceGroup().id, \
    clusterName)}', 54)
resource cluster properties.aadProfile => {{length(admins) > 0} ? { managed: true, \
    adminGroupObjectIDs: admins } : null}
resource cluster properties.agentPoolProfiles.mode => {{pool.key =~ 'System'} ? 'System' : 'User'}
resource cluster properties.agentPoolProfiles.minCount => {{pool.value / 2} + {pool.value % 2}}
resource cluster properties.agentPoolProfiles.maxCount => {2 * ({pool.value + 1})}
resource quiet properties.timeInWeek => [{ day: 'Sunday', hourSlots: [1, 2, 3] }]
";

/// A bus with queues and topics, whose children are three resources deep, and a rule of the first.
pub const QUEUES: &str = "param namespaceName string
param queues array = [
  { name: 'orders', sessions: true }
  { name: 'mails' }
]
param topics object = {
  events: [ 'audit', 'search' ]
}

resource bus 'Microsoft.ServiceBus/namespaces@2022-10-01-preview' = {
  name: namespaceName
  location: resourceGroup().location
  sku: { name: 'Standard', tier: 'Standard' }

  resource lines 'queues' = [for queue in queues: {
    name: queue.name
    properties: {
      lockDuration: 'PT1M'
      maxDeliveryCount: 10
      requiresSession: queue.?sessions ?? false
      deadLetteringOnMessageExpiration: true
    }
  }]

  resource events 'topics' = {
    name: 'events'
    properties: { defaultMessageTimeToLive: 'P14D' }

    resource readers 'subscriptions' = [for (reader, i) in topics.events: if (i < 10) {
      name: '${reader}-${i}'
      properties: { maxDeliveryCount: 3 + i }
    }]
  }

  resource senders 'AuthorizationRules' = {
    name: 'send'
    properties: { rights: [ 'Send' ] }
  }
}

resource filter 'Microsoft.ServiceBus/namespaces/topics/subscriptions/rules@2022-10-01-preview' = {
  parent: bus::events::readers[0]
  name: 'only'
  properties: {
    filterType: 'SqlFilter'
    sqlFilter: { sqlExpression: 'kind = \\'${topics.events[0]}\\' OR kind IS NULL' }
  }
}

output sender string = bus::senders.id
output reader string = bus::events::readers[0].name
output endpoint string = bus.properties.serviceBusEndpoint
";

const QUEUES_PARTS: &str = "\
param queues 1 => { name: 'mails' }
resource bus lines.properties.requiresSession => {queue.?sessions ?? false}
resource bus events.readers => 'subscriptions' = [for (reader, i) in topics.events: if ({i < 10}) \
    {..}]
resource filter parent => bus::events::readers[0]
resource filter properties.sqlFilter => { sqlExpression: 'kind = \\'${topics.events[0]}\\' OR kind IS \
    NULL' }
output reader => string = bus::events::readers[0].name
output endpoint => string = bus.properties.serviceBusEndpoint
";

/// The files, with what each declares and some of its parts.
pub const SAMPLES: [Sample; 6] = [
    (
        SITE,
        "9: param appName, param skuName, param runtime, param settings, var base, resource plan, \
         resource site, output url, output principalId",
        SITE_PARTS,
    ),
    (
        FUNCTIONS,
        "14: param name, param location, param storageName, param extra, param accountKey, \
         var workers, resource account, resource insights, var connection, var settings, var more, \
         resource app, output host, output slots",
        FUNCTIONS_PARTS,
    ),
    (
        CONTAINERS,
        "10: param environmentId, param image, param replicas, param secrets, param probes, \
         var registry, var cpu, resource identity, resource orders, output url",
        CONTAINERS_PARTS,
    ),
    (
        MACHINE,
        "9: param vmName, param adminName, param publicKey, param subnetId, param diskSizes, \
         param inUltra, var script, resource card, resource machine",
        MACHINE_PARTS,
    ),
    (
        CLUSTER,
        "8: param clusterName, param nodeCounts, param version, param admins, param isPrivate, \
         resource cluster, resource quiet, output issuer",
        CLUSTER_PARTS,
    ),
    (
        QUEUES,
        "8: param namespaceName, param queues, param topics, resource bus, resource filter, \
         output sender, output reader, output endpoint",
        QUEUES_PARTS,
    ),
];
