// Templates in the manner of public quickstart templates, with resources in an array.

use crate::rows::compare_same;
use std::test::Fail;

const TEMPLATES: &str = r#"# A storage account.
{"$schema":"¤","contentVersion":"1.0.0.0","outputs":{"storageAccountId":{"type":"string",
    "value":"[resourceId('Microsoft.Storage/storageAccounts', parameters('storageAccountName'))]"},
    "storageAccountName":{"type":"string","value":"[parameters('storageAccountName')]"}},"parameters":{
    "location":{"defaultValue":"[resourceGroup().location]","type":"string"},"storageAccountName":{
    "defaultValue":"[concat('store', uniqueString(resourceGroup().id))]","maxLength":24,"minLength":3,
    "type":"string"},"storageAccountType":{"allowedValues":["Premium_LRS","Standard_GRS","Standard_LRS"],
    "defaultValue":"Standard_LRS","metadata":{"description":"Storage account type"},"type":"string"}},
    "resources":[{"apiVersion":"2022-09-01","kind":"StorageV2","location":"[parameters('location')]",
    "name":"[parameters('storageAccountName')]","properties":{},"sku":{
    "name":"[parameters('storageAccountType')]"},"type":"Microsoft.Storage/storageAccounts"}]}

# A network with subnets by a loop in its body.
{"$schema":"¤","contentVersion":"1.0.0.0","parameters":{"subnets":{"defaultValue":[{"name":"Subnet1",
    "prefix":"10.0.0.0/24"},{"name":"Subnet2","prefix":"10.0.1.0/24"}],"type":"array"},"vnetAddressPrefix":{
    "defaultValue":"10.0.0.0/16","type":"string"},"vnetName":{"defaultValue":"VNet1","type":"string"}},
    "resources":[{"apiVersion":"2021-08-01","location":"[resourceGroup().location]",
    "name":"[parameters('vnetName')]","properties":{"addressSpace":{"addressPrefixes":[
    "[parameters('vnetAddressPrefix')]"]},"copy":[{"count":"[length(parameters('subnets'))]","input":{
    "name":"[parameters('subnets')[copyIndex('subnets')].name]","properties":{
    "addressPrefix":"[parameters('subnets')[copyIndex('subnets')].prefix]"}},"name":"subnets"}]},
    "type":"Microsoft.Network/virtualNetworks"}]}

# A site on its plan.
{"$schema":"¤","contentVersion":"1.0.0.0","parameters":{"linuxFxVersion":{"defaultValue":"DOTNETCORE|3.0",
    "type":"string"},"secret":{"defaultValue":"","type":"securestring"},"sku":{"defaultValue":"F1",
    "type":"string"},"webAppName":{"minLength":2,"type":"string"}},"resources":[{"apiVersion":"2022-03-01",
    "kind":"linux","location":"[resourceGroup().location]","name":"[variables('planName')]","properties":{
    "reserved":true},"sku":{"name":"[parameters('sku')]"},"type":"Microsoft.Web/serverfarms"},{
    "apiVersion":"2022-03-01","dependsOn":["[variables('planName')]"],
    "location":"[resourceGroup().location]","name":"[variables('siteName')]","properties":{
    "serverFarmId":"[resourceId('Microsoft.Web/serverfarms', variables('planName'))]","siteConfig":{
    "appSettings":[],"linuxFxVersion":"[parameters('linuxFxVersion')]"}},"type":"Microsoft.Web/sites"}],
    "variables":{"planName":"[concat('AppServicePlan-', parameters('webAppName'))]",
    "siteName":"[parameters('webAppName')]"}}

# A nested deployment with parameters of its own.
{"$schema":"¤","contentVersion":"1.0.0.0","outputs":{"storeId":{"type":"string",
    "value":"[reference('innerStore').outputs.id.value]"}},"parameters":{"storeName":{"maxLength":24,
    "type":"string"}},"resources":[{"apiVersion":"2021-04-01","name":"innerStore","properties":{
    "expressionEvaluationOptions":{"scope":"inner"},"mode":"Incremental","parameters":{"location":{
    "value":"[resourceGroup().location]"},"name":{"value":"[parameters('storeName')]"}},"template":{
    "$schema":"¤","contentVersion":"1.0.0.0","outputs":{"id":{"type":"string",
    "value":"[resourceId('Microsoft.Storage/storageAccounts', parameters('name'))]"}},"parameters":{
    "location":{"type":"string"},"name":{"type":"string"}},"resources":[{"apiVersion":"2022-09-01",
    "kind":"StorageV2","location":"[parameters('location')]","name":"[parameters('name')]","sku":{
    "name":"Standard_LRS"},"type":"Microsoft.Storage/storageAccounts"}]}},
    "type":"Microsoft.Resources/deployments"}]}

# A nested deployment that sees the variables around it.
{"$schema":"¤","contentVersion":"1.0.0.0","parameters":{"deployStore":{"defaultValue":true,"type":"bool"}},
    "resources":[{"apiVersion":"2021-04-01","condition":"[parameters('deployStore')]","name":"outerStore",
    "properties":{"mode":"Incremental","template":{"$schema":"¤","contentVersion":"1.0.0.0",
    "languageVersion":"2.0","resources":{"store":{"apiVersion":"2022-09-01","kind":"StorageV2",
    "location":"[resourceGroup().location]","name":"[variables('storeName')]","sku":{"name":"Standard_LRS"},
    "type":"Microsoft.Storage/storageAccounts"}}}},"type":"Microsoft.Resources/deployments"}],"variables":{
    "storeName":"[toLower(concat('st', uniqueString(resourceGroup().id)))]"}}

# Stores one batch after another, and then addresses.
{"$schema":"¤","contentVersion":"1.0.0.0","parameters":{"storeCount":{"defaultValue":3,"maxValue":10,
    "minValue":1,"type":"int"}},"resources":[{"apiVersion":"2022-09-01","copy":{"batchSize":2,
    "count":"[parameters('storeCount')]","mode":"serial","name":"storecopy"},"kind":"StorageV2",
    "location":"[resourceGroup().location]",
    "name":"[concat(copyIndex(), 'store', uniqueString(resourceGroup().id))]","sku":{"name":"Standard_LRS"},
    "type":"Microsoft.Storage/storageAccounts"},{"apiVersion":"2021-08-01","copy":{"count":3,
    "name":"ipcopy"},"dependsOn":["storecopy"],"location":"[resourceGroup().location]",
    "name":"[concat('ip', copyIndex(1))]","properties":{"publicIPAllocationMethod":"Dynamic"},
    "type":"Microsoft.Network/publicIPAddresses"}]}

# Variables and outputs by loops.
{"$schema":"¤","contentVersion":"1.0.0.0","outputs":{"disks":{"type":"object",
    "value":"[variables('disks')]"},"names":{"copy":{"count":"[length(variables('diskNames'))]",
    "input":"[variables('diskNames')[copyIndex()]]"},"type":"array"}},"resources":[],"variables":{"copy":[{
    "count":5,"input":"[concat('disk', copyIndex('diskNames', 1))]","name":"diskNames"}],"disks":{"copy":[{
    "count":"[length(variables('diskNames'))]","input":{"diskSizeGB":1023,"lun":"[copyIndex('data')]"},
    "name":"data"}],"os":"Windows"}}}

# A server with a database under it.
{"$schema":"¤","contentVersion":"1.0.0.0","parameters":{"login":{"type":"string"},"password":{
    "type":"securestring"},"serverName":{"defaultValue":"[uniqueString('sql', resourceGroup().id)]",
    "type":"string"},"sqlDBName":{"defaultValue":"SampleDB","type":"string"}},"resources":[{
    "apiVersion":"2021-08-01-preview","location":"[resourceGroup().location]",
    "name":"[parameters('serverName')]","properties":{"administratorLogin":"[parameters('login')]",
    "administratorLoginPassword":"[parameters('password')]"},"resources":[{
    "apiVersion":"2021-08-01-preview","location":"[resourceGroup().location]",
    "name":"[parameters('sqlDBName')]","sku":{"name":"Standard","tier":"Standard"},"type":"databases"}],
    "type":"Microsoft.Sql/servers"}]}

# A resource and an output that are left away by a condition.
{"$schema":"¤","contentVersion":"1.0.0.0","outputs":{"key":{
    "condition":"[equals(parameters('newOrExisting'), 'new')]","metadata":{"description":"the name"},
    "type":"string","value":"[parameters('storageAccountName')]"}},"parameters":{"newOrExisting":{
    "allowedValues":["new","existing"],"type":"string"},"storageAccountName":{"type":"string"}},
    "resources":[{"apiVersion":"2022-09-01","condition":"[equals(parameters('newOrExisting'), 'new')]",
    "kind":"StorageV2","location":"[resourceGroup().location]","metadata":{"purpose":"logs"},
    "name":"[parameters('storageAccountName')]","sku":{"name":"Standard_LRS"},
    "type":"Microsoft.Storage/storageAccounts"}]}

# An argument by a loop, and texts in brackets that are no expressions.
{"$schema":"¤","contentVersion":"1.0.0.0","parameters":{"env":{"allowedValues":["dev","[[test]"],
    "defaultValue":"dev","type":"string"},"settings":{"defaultValue":{"mark":"[[not an expression]"},
    "type":"secureObject"}},"resources":[{"apiVersion":"2021-04-01",
    "name":"[concat('net-', parameters('env'))]","properties":{"expressionEvaluationOptions":{
    "scope":"inner"},"mode":"Incremental","parameters":{"prefixes":{"copy":[{"count":3,
    "input":"[concat('10.0.', copyIndex('value'), '.0/24')]","name":"value"}]},"settings":{
    "value":"[parameters('settings')]"}},"template":{"$schema":"¤","contentVersion":"1.0.0.0","outputs":{
    "first":{"type":"string","value":"[first(parameters('prefixes'))]"}},"parameters":{"prefixes":{
    "type":"array"},"settings":{"type":"secureObject"}},"resources":[]}},
    "type":"Microsoft.Resources/deployments"}]}

"#;

#[test]
fn quickstarts_are_written_as_they_are_read(rt: HostRuntime) -> Result<(), Fail> {
    compare_same(rt.alloc(), TEMPLATES)
}
