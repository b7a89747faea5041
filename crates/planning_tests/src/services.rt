// Tasks and needs of templates as they are found in practice: storage, a network, and a web site.

use crate::asking::check_all;
use std::rt::HostRuntime;
use std::test::Fail;

// An account with a service in it, a container for each name, and a policy that waits for all containers.
const STORAGE: &str = r#"{§,"parameters":{"account":{"type":"string","defaultValue":"logs"},
"containers":{"type":"array","defaultValue":["raw","done"]}},"resources":[
{"type":"Microsoft.Storage/storageAccounts","apiVersion":"2023-01-01","name":"[parameters('account')]",
"location":"westeurope","sku":{"name":"Standard_LRS"},"kind":"StorageV2"},
{"type":"Microsoft.Storage/storageAccounts/blobServices","apiVersion":"2023-01-01",
"name":"[format('{0}/default', parameters('account'))]",
"dependsOn":["[resourceId('Microsoft.Storage/storageAccounts', parameters('account'))]"]},
{"type":"Microsoft.Storage/storageAccounts/blobServices/containers","apiVersion":"2023-01-01",
"name":"[format('{0}/default/{1}', parameters('account'), parameters('containers')[copyIndex()])]",
"copy":{"name":"each","count":"[length(parameters('containers'))]"},
"dependsOn":["[resourceId('Microsoft.Storage/storageAccounts/blobServices', parameters('account'), 'default')]"]},
{"type":"Microsoft.Storage/storageAccounts/managementPolicies","apiVersion":"2023-01-01",
"name":"[concat(parameters('account'), '/default')]","dependsOn":["each","[parameters('account')]"]}]}
> tasks enter / put /0.0 put /1.0 put /2.0 put /2.1 put /3.0 leave /
> put /0.0 needs enter /
> put /1.0 needs put /0.0
> put /2.0 needs put /1.0
> put /2.1 needs put /1.0
> put /3.0 needs put /2.0
> put /3.0 needs put /2.1
> put /3.0 needs put /0.0
> leave / needs put /3.0
> no put /2.1 needs put /2.0
> no put /2.0 needs put /0.0
> no put /3.0 needs put /1.0
> no put /1.0 needs put /2.0
"#;

// A network with two subnets, two other networks, and peerings both ways, of which those outwards come in turn.
const NETWORK: &str = r#"{§,"variables":{"hub":"hub","spokes":["one","two"]},"resources":[
{"type":"Microsoft.Network/networkSecurityGroups","apiVersion":"2023-05-01","name":"rules"},
{"type":"Microsoft.Network/virtualNetworks","apiVersion":"2023-05-01","name":"[variables('hub')]",
"dependsOn":["rules"],"properties":{"addressSpace":{"addressPrefixes":["10.0.0.0/16"]}},"resources":[
{"type":"subnets","apiVersion":"2023-05-01","name":"front","dependsOn":["[variables('hub')]"],
"properties":{"addressPrefix":"10.0.0.0/24"}},
{"type":"subnets","apiVersion":"2023-05-01","name":"back","dependsOn":["hub/front"],
"properties":{"addressPrefix":"10.0.1.0/24"}}]},
{"type":"Microsoft.Network/virtualNetworks","apiVersion":"2023-05-01","name":"[variables('spokes')[copyIndex()]]",
"copy":{"name":"spokes","count":"[length(variables('spokes'))]"}},
{"type":"Microsoft.Network/virtualNetworks/virtualNetworkPeerings","apiVersion":"2023-05-01",
"name":"[format('{0}/to-{1}', variables('hub'), variables('spokes')[copyIndex()])]",
"copy":{"name":"outwards","count":2,"mode":"serial"},
"dependsOn":["[resourceId('Microsoft.Network/virtualNetworks', variables('hub'))]",
"[resourceId('Microsoft.Network/virtualNetworks', variables('spokes')[copyIndex()])]","hub/back"]},
{"type":"Microsoft.Network/virtualNetworks/virtualNetworkPeerings","apiVersion":"2023-05-01",
"name":"[format('{0}/to-{1}', variables('spokes')[copyIndex()], variables('hub'))]",
"copy":{"name":"inwards","count":2},"dependsOn":["[format(
'Microsoft.Network/virtualNetworks/virtualNetworkPeerings/hub/to-{0}', variables('spokes')[copyIndex()])]"]}]}
> count 12
> task 1 put /0.0
> task 2 put /1.0
> task 3 put /2.0
> task 4 put /3.0
> task 5 put /4.0
> task 8 put /5.1
> task 10 put /6.1
> put /1.0 needs put /0.0
> put /2.0 needs put /1.0
> put /3.0 needs put /2.0
> put /5.0 needs put /1.0
> put /5.0 needs put /3.0
> put /5.0 needs put /4.0
> put /5.1 needs put /4.1
> put /5.1 needs put /5.0
> put /6.0 needs put /5.0
> put /6.1 needs put /5.1
> no put /3.0 needs put /1.0
> no put /4.0 needs put /1.0
> no put /5.0 needs put /4.1
> no put /5.0 needs put /5.1
> no put /6.0 needs put /5.1
> no put /6.1 needs put /6.0
"#;

// A web site on a plan, with its settings as children, and a slot that is left away.
const WEB_SITE: &str = r#"{§,"parameters":{"site":{"type":"string","defaultValue":"shop"},
"staged":{"type":"bool","defaultValue":false}},"resources":[
{"type":"Microsoft.Web/serverfarms","apiVersion":"2022-09-01","name":"[concat(parameters('site'), '-plan')]",
"sku":{"name":"P1v3"}},
{"type":"Microsoft.Insights/components","apiVersion":"2020-02-02","name":"[parameters('site')]"},
{"type":"Microsoft.Web/sites","apiVersion":"2022-09-01","name":"[parameters('site')]",
"dependsOn":["[resourceId('Microsoft.Web/serverfarms', concat(parameters('site'), '-plan'))]"],
"properties":{"serverFarmId":"[resourceId('Microsoft.Web/serverfarms', concat(parameters('site'), '-plan'))]"},
"resources":[{"type":"config","apiVersion":"2022-09-01","name":"appsettings",
"dependsOn":["[resourceId('Microsoft.Web/sites', parameters('site'))]","Microsoft.Insights/components/shop"],
"properties":{"KEY":"[reference('Microsoft.Insights/components/shop').InstrumentationKey]"}},
{"type":"config","apiVersion":"2022-09-01","name":"connectionstrings",
"dependsOn":["Microsoft.Web/sites/shop","shop/appsettings"]}]},
{"type":"Microsoft.Web/sites/slots","apiVersion":"2022-09-01","name":"[concat(parameters('site'), '/staging')]",
"condition":"[parameters('staged')]","dependsOn":["Microsoft.Web/sites/shop"]},
{"type":"Microsoft.Web/sites/hostNameBindings","apiVersion":"2022-09-01","name":"shop/www.example.com",
"dependsOn":["shop/staging","MICROSOFT.WEB/sites/SHOP"]}]}
> tasks enter / put /0.0 put /1.0 put /2.0 put /3.0 put /4.0 put /6.0 leave /
> put /2.0 needs put /0.0
> put /3.0 needs put /2.0
> put /3.0 needs put /1.0
> put /4.0 needs put /2.0
> put /4.0 needs put /3.0
> put /6.0 needs put /2.0
> no put /2.0 needs put /1.0
> no put /4.0 needs put /1.0
> no put /6.0 needs put /5.0
> no leave / needs put /5.0
"#;

#[test]
fn services(rt: HostRuntime) -> Result<(), Fail> {
    check_all(rt.alloc(), &[STORAGE, NETWORK, WEB_SITE])
}
