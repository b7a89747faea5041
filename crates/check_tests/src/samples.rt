// What names of everyday files stand for.

use crate::programs::{Question, compare, write_program};
use bicep_files::sample::Sample;
use bicep_files::{hosts, networks, plain, stored, wholes};
use std::alloc::{AllocError, Global};
use std::test::Fail;

// For each of the files a table, with an empty line between two.
const STORED: &str = "accountName 0.0 => parameter prefix
account name => variable accountName
account sku.name => parameter sku
boxes over => parameter containers
boxes name => item 0
output endpoint 0.0 => properties of resource account
output retention 0.0 => properties of resource blobs

policies over => parameter readers
policies objectId => item 0
policies tenantId => parameter tenantId
vault properties.accessPolicies.0 => variable policies
vault properties.accessPolicies.1.0.tenantId => parameter tenantId
secret parent => resource vault
output secretUri 0.0 => properties of resource vault
output secretUri 1 => name of resource secret

account properties.locations/over => parameter regions
account properties.locations.locationName => item 0
account properties.locations.failoverPriority => index 0
account properties.capabilities.0.0 => parameter throughput
stores over => parameter dbs
stores parent => resource account
stores properties.options.throughput.0.0 => item 0
stores properties.options.throughput.1 => parameter throughput
orders parent => one of resources stores

server location => variable location
server properties.administratorLogin => parameter login
offices over => parameter officeAddresses
offices if.0.0 => item 0
offices name.0.0.0 => index 0
shop sku.0 => parameter elastic
output database => name of resource shop

workspace properties.retentionInDays.0 => parameter retention
pack name.0 => item 0
pack name.1 => name of resource workspace
pack location => state of resource workspace
diagnostics name.0 => name of resource site
diagnostics properties.logs.category => item 0
diagnostics properties.workspaceId => id of resource workspace

isPremium 0.0 => parameter replicas
copies if.0 => parameter isPremium
copies if.1.0 => item 0
pulls name.0 => name of resource registry
pulls name.1.0 => id of resource registry
pulls name.1.1.0 => item 0
pulls name.1.2 => variable pullRole
output principal 0 => state of resource registry
";

const NETWORKS: &str = "name 0 => parameter location
groups name.0.0 => item 0
network properties.subnets/over => parameter subnets
network properties.subnets.properties.networkSecurityGroup.id => id of one of resources groups
network properties.subnets.properties.networkSecurityGroup.id.1 => index 0
network properties.subnets.properties.serviceEndpoints.0 => item 0
network properties.subnets.properties.delegations.1.0.properties.serviceName.0 => item 0
output subnetIds 0.0.0 => properties of resource network
output subnetIds 0.1 => index 0

frontId 0.0 => variable type
frontId 1 => parameter name
frontId 2 => variable frontName
balancer properties.frontendIPConfigurations.0.properties.publicIPAddress.id => id of resource address
balancer properties.probes.0.properties.port.0 => parameter ports
balancer properties.loadBalancingRules.name.0 => item 0
balancer properties.loadBalancingRules.properties.probe.id.0.1 => parameter name

network name.0.0 => parameter subnetId
zones name.0 => item 0
zones name.1 => parameter suffix
links parent => one of resources zones
links parent.1 => index 0
links name.0 => name of resource network
links properties.virtualNetwork.id => id of resource network
endpoints properties.privateLinkServiceConnections.0.name => item 0
endpoints properties.privateLinkServiceConnections.0.properties.privateLinkServiceId => id of resource account
names parent => one of resources endpoints
names properties.privateDnsZoneConfigs.0.properties.privateDnsZoneId => id of one of resources zones
names properties.privateDnsZoneConfigs.0.properties.privateDnsZoneId.1 => index 0
output addresses 0.0.0 => properties of one of resources endpoints

group properties.securityRules/over.0 => variable inbound
group properties.securityRules/over.1 => parameter allowed
group properties.securityRules.properties.priority.0 => variable first
group properties.securityRules.properties.priority.1.1 => index 0
deny if.0 => parameter isOpen
deny parent => resource group
output rules 1.0 => parameter allowed

out over => parameter spokes
out if.0.0 => item 0
out properties.remoteVirtualNetwork.id.0.0.0 => item 0
back name.0 => index 0
back params.to => id of resource hub
back params.useRemoteGateways.1.0.0 => id of resource gateway
back dependsOn.0 => one of resources out
back dependsOn.0.1 => index 0
output gateway 1 => id of resource gateway
output states 0 => state of one of modules back

children over => parameter zones
children name.0 => item 0
children name.1 => parameter domain
children tags.order.0.0 => index 0
children tags.order.1.0 => parameter zones
mail parent => resource zone
mail properties.TTL.1 => variable ttl
output first 0.0.0 => properties of resource zone
";

const HOSTS: &str = "base ASPNETCORE_ENVIRONMENT.0.0 => parameter skuName
site properties.serverFarmId => id of resource plan
site properties.siteConfig.linuxFxVersion => parameter runtime
appSettings properties.0 => variable base
appSettings properties.1 => parameter settings
logs dependsOn.0 => resource appSettings
output principalId 0 => state of resource site

connection 0.1.0 => name of resource account
connection 0.2.0 => parameter accountKey
settings 0.value => variable connection
settings 3.value.0.0.0 => variable workers
settings 4.value.0 => properties of resource insights
more name.0.0 => item 0
app properties.siteConfig.appSettings.1 => variable more
app properties.siteConfig.functionAppScaleLimit.1 => variable workers
slot if.1.0.0 => parameter extra
output slots 0.1 => parameter name

registry 0.0 => parameter image
orders properties.configuration.secrets/over => parameter secrets
orders properties.configuration.secrets.keyVaultUrl.0 => item 0
orders properties.configuration.secrets.identity => id of resource identity
orders properties.configuration.registries.0.server => variable registry
orders properties.template.containers.0.probes.0 => parameter probes
orders properties.template.scale.minReplicas.0 => parameter replicas

card name.0 => parameter vmName
machine properties.storageProfile.dataDisks/over => parameter diskSizes
machine properties.storageProfile.dataDisks.lun => index 0
machine properties.storageProfile.dataDisks.diskSizeGB => item 0
machine properties.networkProfile.networkInterfaces.0.id => id of resource card
setup properties.protectedSettings.script.0 => variable script

cluster properties.agentPoolProfiles/over.0 => parameter nodeCounts
cluster properties.agentPoolProfiles.name.0 => item 0
cluster properties.agentPoolProfiles.maxCount.1.0.0 => item 0
cluster properties.kubernetesVersion.0.0 => parameter version
quiet parent => resource cluster
output issuer 0.0.0 => properties of resource cluster

lines over => parameter queues
lines properties.requiresSession.0.0 => item 0
readers over.0 => parameter topics
readers if.0 => index 0
readers name.1 => index 0
filter parent => one of resources readers
filter properties.sqlFilter.sqlExpression.0.0.0 => parameter topics
output sender => id of resource senders
output reader => name of one of resources readers
output endpoint 0 => properties of resource bus
";

const WHOLES: &str = "suffix 0 => parameter stage
tags stage => parameter stage
network params.tags => variable tags
network name.0 => parameter suffix
database if.0 => parameter stage
database params.subnetId.0 => subnetIds of module network
database params.tags.0 => variable tags
apps params.appName => item 0
apps params.slot => index 0
apps params.settings.0.value.2 => host of module database
output hosts => host of one of modules apps
output hosts 1 => item 0
output networkId => id of module network

primary 0 => parameter regions
short over => parameter regions
short 0.0 => parameter names
short 0.1 => item 0
stamps name.0.0 => variable short
stamps name.0.1 => index 0
stamps params.isPrimary.1 => variable primary
profile properties.endpoints.properties.targetResourceId => appId of one of modules stamps
profile properties.endpoints.properties.weight.0.1 => item 0
profile dependsOn.0 => modules stamps
output first => summary of one of modules stamps

isGiven 1.0.0 => parameter principals
vault name => parameter vaultName
readers properties.principalId => item 0
readers name.2.0 => variable roles
secrets if => variable isGiven
secrets name.0 => name of resource vault
secrets name.1.0 => id of resource vault
secrets name.1.2.0 => variable roles
lock name.1 => parameter vaultName
secrets properties.description.1 => name of resource vault
output assignments id => id of one of resources readers
output assignments id.1 => index 0
output assignments principal => item 0

rule over => parameter requiredTags
rule properties.policyRule.then.effect.0 => parameter enforce
budget properties.notifications.over-80.contactEmails.0.0 => item 0
output rules => id of one of resources rule
output place => variable place
";

const PLAIN: &str = "isProd 0 => parameter stage
isShared 0 => variable isProd
size 2.0 => variable isShared
plan 0.0 => parameter overrides
plan 1.0 => variable isProd
limits disks.1.0 => parameter features
label 1 => variable size
label 2.0 => variable hasMail
output plan => variable plan
output limits 0 => variable limits

address 0 => parameter user
deep 0.0.0 => parameter user
script 0.0 => variable unit
checked nested.0.0.0 => variable lines
output script => variable script

total 0.0.0 => parameter count
signed 1.0.0 => parameter price
either 1.1.0 => variable isOdd
picked 0.0 => variable isLarge
last 1.0.0.0.0.0 => parameter names
output picked => variable picked
";

// Files with an unknown name, and the beginning of the first: a function that is not known, or the item of a loop
// around a nested resource.
const UNKNOWN: [(&str, &str); 3] = [
    (
        "output suffix string = environment().suffixes.storage\n",
        "unknown enviro\n",
    ),
    (
        "param id string\noutput key string = listKeys(id, '2022-09-01').key\n",
        "unknown listKe\n",
    ),
    (
        "resource topics 'Microsoft.ServiceBus/namespaces/topics@2021-11-01' = [for topic in [ 'a' ]: {
  name: 'bus/${topic}'

  resource readers 'subscriptions' = {
    name: topic
  }
}]
",
        "unknown topic\n\n",
    ),
];

// Fails unless this is found for a file.
fn check_first(alloc: Global, text: &str, wanted: &str) -> Result<(), Fail> {
    let mut found = String::new(alloc);
    write_program(alloc, &mut found, Question::Names, (text, "", 0))?;
    compare(found.as_str(), wanted)
}

#[test]
fn the_first_name_that_means_nothing(rt: HostRuntime) -> Result<(), Fail> {
    for (text, wanted) in UNKNOWN {
        check_first(rt.alloc(), text, wanted)?;
    }
    Ok(())
}

// Writes what is found for the files, with an empty line between two.
fn write_samples(
    alloc: Global,
    out: &mut String,
    samples: &[Sample],
    tables: &str,
) -> Result<(), AllocError> {
    let mut rest = tables.split("\n\n");
    for sample in samples {
        if !out.is_empty() {
            out.push_str("\n")?;
        }
        let table = rest.next().unwrap_or("");
        write_program(alloc, out, Question::Names, (sample.0, table, 0))?;
    }
    Ok(())
}

// Fails unless the names of the files stand for what the tables say.
fn check_samples(alloc: Global, samples: &[Sample], tables: &str) -> Result<(), Fail> {
    let mut found = String::new(alloc);
    write_samples(alloc, &mut found, samples, tables)?;
    compare(found.as_str(), tables)
}

#[test]
fn names_of_what_is_stored(rt: HostRuntime) -> Result<(), Fail> {
    check_samples(rt.alloc(), &stored::SAMPLES, STORED)
}

#[test]
fn names_of_networks(rt: HostRuntime) -> Result<(), Fail> {
    check_samples(rt.alloc(), &networks::SAMPLES, NETWORKS)
}

#[test]
fn names_of_hosts(rt: HostRuntime) -> Result<(), Fail> {
    check_samples(rt.alloc(), &hosts::SAMPLES, HOSTS)
}

#[test]
fn names_of_wholes(rt: HostRuntime) -> Result<(), Fail> {
    check_samples(rt.alloc(), &wholes::SAMPLES, WHOLES)
}

#[test]
fn names_of_plain_values(rt: HostRuntime) -> Result<(), Fail> {
    check_samples(rt.alloc(), &plain::SAMPLES, PLAIN)
}
