// Files in the manner of everyday templates: each line with the shapes of its tokens after `⇒`:
// n a name, 0 a number, t a text, l, m and r the pieces of an interpolated text, v a verbatim text,
// ¶ a line's end, and each mark as it is written.

/// A storage account with one container.
pub const STORAGE: &str = "\
// A storage account with one container.⇒¶
targetScope = 'resourceGroup'⇒n=t¶
⇒
@description('Where it stands.')⇒@n(t)¶
param location string = resourceGroup().location⇒nnn=n().n¶
⇒
@minLength(3)⇒@n(0)¶
@maxLength(24)⇒@n(0)¶
param accountName string = 'st${uniqueString(resourceGroup().id)}'⇒nnn=ln(n().n)r¶
⇒
@allowed([⇒@n([¶
  'Standard_LRS'⇒t¶
  'Standard_GRS'⇒t¶
])⇒])¶
param skuName string = 'Standard_LRS'⇒nnn=t¶
⇒
param retentionDays int = 7 // a week⇒nnn=0¶
⇒
var tags = {⇒nn={¶
  owner: 'platform'⇒n:t¶
  'cost-center': '42'⇒t:t¶
  kept: retentionDays > 0 && retentionDays <= 365⇒n:n>0&&n<=0¶
}⇒}¶
⇒
resource account 'Microsoft.Storage/storageAccounts@2023-01-01' = {⇒nnt={¶
  name: toLower(accountName)⇒n:n(n)¶
  location: location⇒n:n¶
  kind: 'StorageV2'⇒n:t¶
  sku: { name: skuName }⇒n:{n:n}¶
  tags: tags⇒n:n¶
  properties: {⇒n:{¶
    minimumTlsVersion: 'TLS1_2'⇒n:t¶
    supportsHttpsTrafficOnly: true⇒n:n¶
    accessTier: skuName == 'Standard_LRS' ? 'Hot' : 'Cool'⇒n:n==t?t:t¶
  }⇒}¶
}⇒}¶
⇒
#disable-next-line use-parent-property⇒
resource blobs 'Microsoft.Storage/storageAccounts/blobServices@2023-01-01' = {⇒nnt={¶
  parent: account⇒n:n¶
  name: 'default'⇒n:t¶
  properties: {⇒n:{¶
    deleteRetentionPolicy: { enabled: retentionDays != 0, days: retentionDays }⇒n:{n:n!=0,n:n}¶
  }⇒}¶
}⇒}¶
⇒
output id string = account.id⇒nnn=n.n¶
output blob string = account.properties.primaryEndpoints.blob⇒nnn=n.n.n.n¶
output first string = account.properties.?keys[?0] ?? 'none'⇒nnn=n.n.?n[?0]??t¶
output isLocal bool = location =~ 'WestEurope' || !empty(tags)⇒nnn=n=~t||!n(n)¶
";

/// A network with subnets, addresses and outputs.
pub const NETWORK: &str = "\
metadata name = 'Network'⇒nn=t¶
metadata description = '''⇒nn=v
A network, and what isn't ${in} it.⇒
'''⇒¶
⇒
param prefix string⇒nnn¶
param count int = 3⇒nnn=0¶
param zones array = [ '1', '2', '3' ]⇒nnn=[t,t,t]¶
param settings object = {}⇒nnn={}¶
⇒
var parts = split('10.0.0.0/16', '.')⇒nn=n(t,t)¶
var half = (count + 1) / 2 - count % 2 * 4⇒nn=(n+0)/0-n%0*0¶
var names = [for i in range(0, count): 'subnet-${i}']⇒nn=[nnnn(0,n):lnr]¶
var label = '${prefix}-${environment().name}-${count}'⇒nn=lnmn().nmnr¶
var deep = 'a${'b${'c'}d'}e'⇒nn=lltrr¶
var path = 'C:\\\\temp\\n\\u{1F600} costs \\$5 or $6'⇒nn=t¶
⇒
/* One network,⇒
   with its subnets⇒
*/⇒
resource network 'Microsoft.Network/virtualNetworks@2023-04-01' = {⇒nnt={¶
  name: '${prefix}-net'⇒n:lnr¶
  location: resourceGroup().location⇒n:n().n¶
  properties: {⇒n:{¶
    addressSpace: { addressPrefixes: [ '10.0.0.0/16' ] }⇒n:{n:[t]}¶
    subnets: [for (name, index) in names: {⇒n:[n(n,n)nn:{¶
      name: name⇒n:n¶
      properties: { addressPrefix: '10.0.${index}.0/24' }⇒n:{n:lnr}¶
    }]⇒}]¶
  }⇒}¶
}⇒}¶
⇒
@batchSize(2)⇒@n(0)¶
resource addresses 'Microsoft.Network/publicIPAddresses@2023-04-01' = [for z in zones: if (count >= 2) {⇒nnt=[\
    nnnn:n(n>=0){¶
  name: '${prefix}-ip-${z}'⇒n:lnmnr¶
  zones: [ z ]⇒n:[n]¶
  sku: {⇒n:{¶
    name: 'Standard' /* zone-redundant */⇒n:t¶
  }⇒}¶
}]⇒}]¶
⇒
resource old 'Microsoft.Network/virtualNetworks@2023-04-01' existing = {⇒nntn={¶
  name: settings.?network ?? 'hub'⇒n:n.?n??t¶
}⇒}¶
⇒
output subnet string = network.properties.subnets[0].name⇒nnn=n.n.n[0].n¶
output ips array = [for i in range(0, length(zones)): addresses[i].id]⇒nnn=[nnnn(0,n(n)):n[n].n]¶
output nested string = network::inner.id⇒nnn=n::n.n¶
output sure string = old.properties!.name⇒nnn=n.n!.n¶
output flags bool = count < 5 && half !~ 'x' || -1 == count⇒nnn=n<0&&n!~t||-0==n¶
";

/// A site, whose lines begin with tabs, and letters beyond ASCII.
pub const SITE: &str = "\
⇒¶
⇒
param environment string⇒nnn¶
param version string = 'v1.2.3'⇒nnn=t¶
param replicas int = 9223372036854775807⇒nnn=0¶
param secret string = 'it\\'s'⇒nnn=t¶
param empty string = ''⇒nnn=t¶
param flag bool = false⇒nnn=n¶
⇒
// names⇒
var base = 'app-${environment}'⇒nn=lnr¶
var both = '${base}${version}'⇒nn=lnmnr¶
var price = '$${replicas}$'⇒nn=lnr¶
var json = '''{ \"a\": '1' }'''⇒nn=v¶
var quoted = '''''x'''''⇒nn=v¶
var map = { a: { b: [ 1, 2 ] }, 'c d': null }⇒nn={n:{n:[0,0]},t:n}¶
var pick = { x: 1 }['x']⇒nn={n:0}[t]¶
var inside = '${{ a: { b: base } }.a.b}!'⇒nn=l{n:{n:n}}.n.nr¶
⇒
module web './modules/web.bicep' = {⇒nnt={¶
\tname: 'web-${uniqueString(base, version)}'⇒n:ln(n,n)r¶
\tparams: {⇒n:{¶
\t\tname: '${base}-web'⇒n:lnr¶
\t\treplicas: flag ? replicas : 1⇒n:n?n:0¶
\t\tsettings: [⇒n:[¶
\t\t\t{ name: 'A', value: 'b' }⇒{n:t,n:t}¶
\t\t\t{ name: 'C', value: '${environment == 'prod' ? 'd' : 'e'}' }⇒{n:t,n:ln==t?t:tr}¶
⇒
\t\t\t// the last⇒
\t\t]⇒]¶
\t}⇒}¶
}⇒}¶
⇒
module jobs 'modules/jobs.bicep' = if (flag) {⇒nnt=n(n){¶
\tname: 'jobs'⇒n:t¶
\tparams: { count: max(1, replicas / 2), host: web.outputs.host }⇒n:{n:n(0,n/0),n:n.n.n}¶
}⇒}¶
⇒
resource plan 'Microsoft.Web/serverfarms@2022-09-01' = {⇒nnt={¶
\tname: base⇒n:n¶
\tlocation: 'westeurope' // n\u{e9}ar \u{2014} \u{fc}n\u{ef}code⇒n:t¶
\tsku: { name: 'P1v3', capacity: replicas }⇒n:{n:t,n:n}¶
\tproperties: {}⇒n:{}¶
\tresource slot 'slots' = { name: 'staging' }⇒nnt={n:t}¶
}⇒}¶
⇒
output host string = web.outputs.host⇒nnn=n.n.n¶
output text string = '\u{fc} is ${'\\u{fc}'}'⇒nnn=ltr¶
output call string = sys.concat(base, az.subscription().id)⇒nnn=n.n(n,n.n().n)¶
output last int = 0⇒nnn=0¶
";
