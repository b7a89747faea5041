// Files of networks: what is in them, what comes before them, and how they are named.

use crate::sample::Sample;

/// A network whose subnets are a loop over objects, with conditions inside.
pub const NETWORK: &str = "metadata description = 'A network with a security group for each subnet.'

param location string = 'westeurope'
param name string = 'vnet-${location}'
param addressPrefix string = '10.20.0.0/16'
param subnets array = [
  {
    name: 'web'
    prefix: '10.20.0.0/24'
    endpoints: [ { service: 'Microsoft.Storage' }, { service: 'Microsoft.KeyVault' } ]
  }
  {
    name: 'data'
    prefix: '10.20.1.0/24'
    endpoints: []
    delegation: 'Microsoft.DBforPostgreSQL/flexibleServers'
  }
]

resource groups 'Microsoft.Network/networkSecurityGroups@2023-04-01' = [for subnet in subnets: {
  name: 'nsg-${subnet.name}'
  location: location
}]

resource network 'Microsoft.Network/virtualNetworks@2023-04-01' = {
  name: name
  location: location
  properties: {
    addressSpace: {
      addressPrefixes: [
        addressPrefix
      ]
    }
    subnets: [for (subnet, i) in subnets: {
      name: subnet.name
      properties: {
        addressPrefix: subnet.prefix
        networkSecurityGroup: { id: groups[i].id }
        serviceEndpoints: subnet.endpoints
        delegations: contains(subnet, 'delegation') ? [
          {
            name: 'delegation'
            properties: { serviceName: subnet.delegation }
          }
        ] : []
      }
    }]
  }
}

output id string = network.id
output subnetIds array = [for (subnet, i) in subnets: network.properties.subnets[i].id]
";

const NETWORK_PARTS: &str = "\
metadata description => 'A network with a security group for each subnet.'
param subnets 0 => { name: 'web', prefix: '10.20.0.0/24', endpoints: [{ service: \
    'Microsoft.Storage' }, { service: 'Microsoft.KeyVault' }] }
param subnets 1.endpoints => []
resource groups => 'Microsoft.Network/networkSecurityGroups@2023-04-01' = [for subnet in subnets: \
    {..}]
resource network properties.subnets.properties.networkSecurityGroup => { id: groups[i].id }
resource network properties.subnets.properties.serviceEndpoints => subnet.endpoints
resource network properties.subnets.properties.delegations => {contains(subnet, 'delegation') ? [{ \
    name: 'delegation', properties: { serviceName: subnet.delegation } }] : []}
output subnetIds => array = [for (subnet, i) in subnets: network.properties.subnets[i].id]
";

/// A public load balancer with a rule for each port.
pub const BALANCER: &str = "param location string = resourceGroup().location
param name string = 'lb-web'
param ports array = [ 80, 443 ]
param isZonal bool = true

// The id of a part of the balancer is made before the balancer is there.
var type = 'Microsoft.Network/loadBalancers'
var frontName = 'public'
var frontId = resourceId('${type}/frontendIPConfigurations', name, frontName)
var poolId = resourceId('${type}/backendAddressPools', name, 'web')

resource address 'Microsoft.Network/publicIPAddresses@2023-04-01' = {
  name: '${name}-pip'
  location: location
  sku: { name: 'Standard', tier: 'Regional' }
  zones: isZonal ? [ '1', '2', '3' ] : null
  properties: {
    publicIPAllocationMethod: 'Static'
    dnsSettings: { domainNameLabel: 'web-${uniqueString(resourceGroup().id)}' }
  }
}

resource balancer 'Microsoft.Network/loadBalancers@2023-04-01' = {
  name: name
  location: location
  sku: { name: 'Standard' }
  properties: {
    frontendIPConfigurations: [
      {
        name: frontName
        properties: { publicIPAddress: { id: address.id } }
      }
    ]
    backendAddressPools: [ { name: 'web' } ]
    probes: [
      {
        name: 'alive'
        properties: {
          protocol: 'Http'
          port: ports[0]
          requestPath: '/alive'
          intervalInSeconds: 15
          numberOfProbes: 2
        }
      }
    ]
    loadBalancingRules: [for port in ports: {
      name: 'port-${port}'
      properties: {
        frontendIPConfiguration: { id: frontId }
        backendAddressPool: { id: poolId }
        probe: { id: '${resourceId('Microsoft.Network/loadBalancers', name)}/probes/alive' }
        protocol: 'Tcp'
        frontendPort: port
        backendPort: port == 443 ? 8443 : port + 8000
        idleTimeoutInMinutes: 4
        disableOutboundSnat: true
      }
    }]
  }
}

output host string = address.properties.dnsSettings.fqdn
";

const BALANCER_PARTS: &str = "\
param ports => array = [80, 443]
var poolId => resourceId('${type}/backendAddressPools', name, 'web')
resource address zones => {isZonal ? ['1', '2', '3'] : null}
resource balancer properties.frontendIPConfigurations.0.properties => { publicIPAddress: { id: \
    address.id } }
resource balancer properties.probes.0.properties.port => ports[0]
resource balancer properties.loadBalancingRules.properties.probe => { id: \
    '${resourceId('Microsoft.Network/loadBalancers', name)}/probes/alive' }
resource balancer properties.loadBalancingRules.properties.backendPort => {{port == 443} ? 8443 : \
    {port + 8000}}
";

/// Private endpoints of an account that is there, with their zones and links.
pub const ENDPOINTS: &str = "param subnetId string
param location string = resourceGroup().location
param groups array = [ 'blob', 'file' ]
param suffix string = 'core.windows.net'

resource account 'Microsoft.Storage/storageAccounts@2023-01-01' existing = {
  name: 'stshop'
}

resource network 'Microsoft.Network/virtualNetworks@2023-04-01' existing = {
  name: split(subnetId, '/')[8]
}

resource zones 'Microsoft.Network/privateDnsZones@2020-06-01' = [for g in groups: {
  name: 'privatelink.${g}.${suffix}'
  location: 'global'
  tags: { group: g }
}]

resource links 'Microsoft.Network/privateDnsZones/virtualNetworkLinks@2020-06-01' = [for (g, i) in groups: {
  parent: zones[i]
  name: 'to-${network.name}'
  location: 'global'
  properties: {
    registrationEnabled: false
    virtualNetwork: { id: network.id }
  }
}]

resource endpoints 'Microsoft.Network/privateEndpoints@2023-04-01' = [for (g, i) in groups: {
  name: '${account.name}-${g}'
  location: location
  properties: {
    subnet: { id: subnetId }
    privateLinkServiceConnections: [
      {
        name: g
        properties: {
          privateLinkServiceId: account.id
          groupIds: [ g ]
        }
      }
    ]
  }
}]

resource names 'Microsoft.Network/privateEndpoints/privateDnsZoneGroups@2023-04-01' = [for (g, i) in groups: {
  parent: endpoints[i]
  name: 'default'
  properties: {
    privateDnsZoneConfigs: [ { name: g, properties: { privateDnsZoneId: zones[i].id } } ]
  }
}]

output addresses array = [for (g, i) in groups: endpoints[i].properties.customDnsConfigs[0]!.fqdn]
";

const ENDPOINTS_PARTS: &str = "\
resource network name => split(subnetId, '/')[8]
resource zones name => 'privatelink.${g}.${suffix}'
resource links => 'Microsoft.Network/privateDnsZones/virtualNetworkLinks@2020-06-01' = [for (g, i) \
    in groups: {..}]
resource links parent => zones[i]
resource links properties => { registrationEnabled: false, virtualNetwork: { id: network.id } }
resource endpoints properties.privateLinkServiceConnections => [{ name: g, properties: { \
    privateLinkServiceId: account.id, groupIds: [g] } }]
resource names properties.privateDnsZoneConfigs.0 => { name: g, properties: { \
    privateDnsZoneId: zones[i].id } }
output addresses => array = [for (g, i) in groups: \
    endpoints[i].properties.customDnsConfigs[0]!.fqdn]
";

/// A security group with rules of two lists, and a last rule of its own.
pub const RULES: &str = "param location string = resourceGroup().location
param allowed array = []
param isOpen bool = false

var inbound = [
  {
    name: 'https'
    port: 443
    source: isOpen ? '*' : 'VirtualNetwork'
  }, {
    name: 'health'
    port: 8080
    source: 'AzureLoadBalancer'
  }
]

var first = 100 // the first priority of these rules

resource group 'Microsoft.Network/networkSecurityGroups@2023-04-01' = {
  name: 'nsg-web'
  location: location
  properties: {
    securityRules: [for (rule, i) in concat(inbound, allowed): {
      name: 'in-${rule.name}'
      properties: {
        access: 'Allow'
        direction: 'Inbound'
        protocol: 'Tcp'
        priority: first + 10 * i
        sourceAddressPrefix: rule.source
        sourcePortRange: '*'
        destinationAddressPrefix: '*'
        destinationPortRange: string(rule.port)
      }
    }]
  }
}

resource deny 'Microsoft.Network/networkSecurityGroups/securityRules@2023-04-01' = if (!isOpen) {
  parent: group
  name: 'deny-all'
  properties: {
    access: 'Deny'
    direction: 'Inbound'
    protocol: '*'
    priority: 4 * 1024 - 1 /* the last one that is allowed is 4096 */
    sourceAddressPrefix: '*'
    sourcePortRange: '*'
    destinationAddressPrefix: '*'
    destinationPortRange: '*'
  }
}

output rules int = length(inbound) + length(allowed)
output id string = group.id
";

const RULES_PARTS: &str = "\
var inbound 0.source => {isOpen ? '*' : 'VirtualNetwork'}
var inbound 1 => { name: 'health', port: 8080, source: 'AzureLoadBalancer' }
resource group properties.securityRules.properties.priority => {first + {10 * i}}
resource deny => 'Microsoft.Network/networkSecurityGroups/securityRules@2023-04-01' = if \
    ({!isOpen}) {..}
resource deny properties.priority => {{4 * 1024} - 1}
output rules => int = {length(inbound) + length(allowed)}
";

/// Peerings between a network that is there and others, to and fro.
pub const PEERINGS: &str = "targetScope = 'resourceGroup'

param hubName string
param spokes array
param useGateway bool = false

resource hub 'Microsoft.Network/virtualNetworks@2023-04-01' existing = {
  name: hubName

  resource gateway 'subnets' existing = {
    name: 'GatewaySubnet'
  }

  @batchSize(1)
  resource out 'virtualNetworkPeerings' = [for spoke in spokes: if (spoke.isPeered == true) {
    name: 'to-${spoke.name}'
    properties: {
      remoteVirtualNetwork: {
        id: resourceId(
          spoke.?group ?? resourceGroup().name,
          'Microsoft.Network/virtualNetworks',
          spoke.name
        )
      }
      allowForwardedTraffic: true
      allowGatewayTransit: useGateway
    }
  }]
}

module back './peering.bicep' = [for (spoke, i) in spokes: if (spoke.isPeered == true) {
  name: 'back-${i}'
  params: {
    from: spoke.name
    to: hub.id
    useRemoteGateways: useGateway && !empty(hub::gateway.id)
  }
  dependsOn: [
    hub::out[i]
  ]
}]

output gateway string = useGateway ? hub::gateway.id : ''
output states array = [for (spoke, i) in spokes: back[i].outputs.state ?? 'unknown']
";

const PEERINGS_PARTS: &str = "\
targetScope => 'resourceGroup'
resource hub gateway => 'subnets' existing = {..}
resource hub out.@ => @batchSize(1)
resource hub out => 'virtualNetworkPeerings' = [for spoke in spokes: if ({spoke.isPeered == true}) \
    {..}]
resource hub out.properties.remoteVirtualNetwork.id => resourceId({spoke.?group ?? \
    resourceGroup().name}, 'Microsoft.Network/virtualNetworks', spoke.name)
module back => './peering.bicep' = [for (spoke, i) in spokes: if ({spoke.isPeered == true}) {..}]
module back params.useRemoteGateways => {useGateway && {!empty(hub::gateway.id)}}
output states => array = [for (spoke, i) in spokes: {back[i].outputs.state ?? 'unknown'}]
";

/// The names of a domain, with further zones in a loop with a condition.
pub const RECORDS: &str = "param domain string
param zones array = [ 'shop', 'blog', 'test' ]
param webAddress string
param isPublic bool = true

var ttl = 60 * 60

resource zone 'Microsoft.Network/dnsZones@2018-05-01' = {
  name: domain
  location: 'global'
  properties: { zoneType: isPublic ? 'Public' : 'Private' }
}

resource children 'Microsoft.Network/dnsZones@2018-05-01' = [for (z, i) in zones: if (z != 'test') {
  name: '${z}.${domain}'
  location: 'global'
  tags: { order: '${i + 1} of ${length(zones)}' }
}]

resource root 'Microsoft.Network/dnsZones/A@2018-05-01' = {
  parent: zone
  name: '@'
  properties: {
    TTL: ttl
    ARecords: [ { ipv4Address: webAddress } ]
  }
}

resource mail 'Microsoft.Network/dnsZones/MX@2018-05-01' = {
  parent: zone
  name: '@'
  properties: {
    TTL: 24 * ttl
    MXRecords: [
      { preference: 10, exchange: 'mx1.${domain}' }
      { preference: 20, exchange: 'mx2.${domain}' }
    ]
  }
}

resource policy 'Microsoft.Network/dnsZones/TXT@2018-05-01' = {
  parent: zone
  name: '_dmarc'
  properties: {
    TTL: ttl
    TXTRecords: [
      { value: [ 'v=DMARC1; p=quarantine; pct=100', 'rua=mailto:post@${domain}' ] }
    ]
  }
}

output servers array = zone.properties.nameServers
output first string = zone.properties.nameServers[?0] ?? 'none'
";

const RECORDS_PARTS: &str = "\
resource children => 'Microsoft.Network/dnsZones@2018-05-01' = [for (z, i) in zones: if ({z != \
    'test'}) {..}]
resource children tags.order => '${{i + 1}} of ${length(zones)}'
resource mail properties.TTL => {24 * ttl}
resource mail properties.MXRecords.1 => { preference: 20, exchange: 'mx2.${domain}' }
resource policy properties.TXTRecords.0.value => ['v=DMARC1; p=quarantine; pct=100', \
    'rua=mailto:post@${domain}']
output first => string = {zone.properties.nameServers[?0] ?? 'none'}
";

/// The files, with what each declares and some of its parts.
pub const SAMPLES: [Sample; 6] = [
    (
        NETWORK,
        "9: metadata description, param location, param name, param addressPrefix, param subnets, \
         resource groups, resource network, output id, output subnetIds",
        NETWORK_PARTS,
    ),
    (
        BALANCER,
        "11: param location, param name, param ports, param isZonal, var type, var frontName, \
         var frontId, var poolId, resource address, resource balancer, output host",
        BALANCER_PARTS,
    ),
    (
        ENDPOINTS,
        "11: param subnetId, param location, param groups, param suffix, resource account, \
         resource network, resource zones, resource links, resource endpoints, resource names, \
         output addresses",
        ENDPOINTS_PARTS,
    ),
    (
        RULES,
        "9: param location, param allowed, param isOpen, var inbound, var first, resource group, \
         resource deny, output rules, output id",
        RULES_PARTS,
    ),
    (
        PEERINGS,
        "8: targetScope, param hubName, param spokes, param useGateway, resource hub, module back, \
         output gateway, output states",
        PEERINGS_PARTS,
    ),
    (
        RECORDS,
        "12: param domain, param zones, param webAddress, param isPublic, var ttl, resource zone, \
         resource children, resource root, resource mail, resource policy, output servers, \
         output first",
        RECORDS_PARTS,
    ),
];
