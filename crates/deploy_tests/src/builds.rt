// Templates that are printed.

use crate::rows::check_rows;
use std::test::Fail;

const TEMPLATES: &str = r#"build main.bicep
=> 0 {"$schema":"https://schema.management.azure.com/schemas/2019-04-01/deploymentTemplate.json#",\
"contentVersion":"1.0.0.0","resources":[]}

build main.bicep
resource a 'Demo.Lab/things@2024-01-01' = {
  name: 'a'
  size: 2
}
=> 0 {"$schema":"https://schema.management.azure.com/schemas/2019-04-01/deploymentTemplate.json#",\
"contentVersion":"1.0.0.0",\
"resources":[{"apiVersion":"2024-01-01","name":"a","size":2,"type":"Demo.Lab/things"}]}

build main.bicep
param location string = resourceGroup().location
resource st 'Microsoft.Storage/storageAccounts@2023-01-01' = {
  name: 'st${uniqueString(resourceGroup().id)}'
  location: location
  sku: { name: 'Standard_LRS' }
  kind: 'StorageV2'
}
output blob string = st.properties.primaryEndpoints.blob
=> 0 {"$schema":"https://schema.management.azure.com/schemas/2019-04-01/deploymentTemplate.json#",\
"contentVersion":"1.0.0.0",\
"outputs":{"blob":{"type":"string","value":"[reference(resourceId('Microsoft.Storage/storageAccounts', \
format('st{0}', uniqueString(resourceGroup().id))), '2023-01-01').primaryEndpoints.blob]"}},\
"parameters":{"location":{"defaultValue":"[resourceGroup().location]","type":"string"}},\
"resources":[{"apiVersion":"2023-01-01","kind":"StorageV2","location":"[parameters('location')]",\
"name":"[format('st{0}', uniqueString(resourceGroup().id))]","sku":{"name":"Standard_LRS"},\
"type":"Microsoft.Storage/storageAccounts"}]}

build main.bicep
param n int = 3
output o string = '{a}${n}'
=> 0 {"$schema":"https://schema.management.azure.com/schemas/2019-04-01/deploymentTemplate.json#",\
"contentVersion":"1.0.0.0",\
"outputs":{"o":{"type":"string","value":"[format('{{a}}{0}', parameters('n'))]"}},\
"parameters":{"n":{"defaultValue":3,"type":"int"}},"resources":[]}

build --language=1.0 main.bicep
output o string = '[x]'
=> 0 {"$schema":"https://schema.management.azure.com/schemas/2019-04-01/deploymentTemplate.json#",\
"contentVersion":"1.0.0.0",\
"outputs":{"o":{"type":"string","value":"[[x]"}},"resources":[]}

build main.bicep
var a = 5 5
=> 1 error NotAFile: main.bicep:10

build no.bicep
=> 1 error ModuleMissing: no.bicep"#;

#[test]
fn templates_are_printed(rt: HostRuntime) -> Result<(), Fail> {
    check_rows(&rt, rt.alloc(), TEMPLATES)
}
