// Tasks and needs of larger templates: deployments in one another, loops, and what complete mode deletes.

use crate::asking::check_all;
use std::rt::HostRuntime;
use std::test::Fail;

// A deployment with parameters of its own, one that uses those around it, and one in that.
const NESTED: &str = r#"{§,"parameters":{"env":{"type":"string","defaultValue":"dev"}},"resources":[
{"type":"Microsoft.KeyVault/vaults","apiVersion":"2023-02-01","name":"[format('{0}-vault', parameters('env'))]"},
{¶,"name":"data","dependsOn":["[format('{0}-vault', parameters('env'))]"],"properties":{«,
"parameters":{"name":{"value":"[format('{0}-sql', parameters('env'))]"}},
"template":{§,"parameters":{"name":{"type":"string"}},"resources":[
{"type":"Microsoft.Sql/servers","apiVersion":"2022-05-01","name":"[parameters('name')]"},
{"type":"Microsoft.Sql/servers/databases","apiVersion":"2022-05-01",
"name":"[format('{0}/orders', parameters('name'))]","dependsOn":["[parameters('name')]"]}],
"outputs":{"server":{"type":"string","value":"[parameters('name')]"}}}}},
{¶,"name":"jobs","dependsOn":["data"],"properties":{»,"template":{§,"resources":[
{"type":"Microsoft.Logic/workflows","apiVersion":"2019-05-01","name":"[format('{0}-nightly', parameters('env'))]"},
{¶,"name":"alerts","dependsOn":["dev-nightly"],"properties":{»,"template":{§,"resources":[
{"type":"Microsoft.Insights/actionGroups","apiVersion":"2023-01-01",
"name":"[format('{0}-mail', parameters('env'))]"}]}}}]}}},
{"type":"Microsoft.App/containerApps","apiVersion":"2023-05-01","name":"api",
"dependsOn":["data","Microsoft.Resources/deployments/jobs"]}]}
> count 14
> task 0 enter /
> task 1 put /0.0
> task 2 enter /1.0/
> task 3 put /1.0/0.0
> task 4 put /1.0/1.0
> task 5 leave /1.0/
> task 6 enter /2.0/
> task 7 put /2.0/0.0
> task 8 enter /2.0/1.0/
> task 9 put /2.0/1.0/0.0
> task 10 leave /2.0/1.0/
> task 11 leave /2.0/
> task 12 put /3.0
> task 13 leave /
> enter /1.0/ needs put /0.0
> enter /1.0/ needs enter /
> put /1.0/1.0 needs put /1.0/0.0
> put /1.0/1.0 needs enter /1.0/
> leave /1.0/ needs put /1.0/1.0
> enter /2.0/ needs leave /1.0/
> enter /2.0/1.0/ needs put /2.0/0.0
> put /2.0/1.0/0.0 needs enter /2.0/1.0/
> leave /2.0/ needs leave /2.0/1.0/
> put /3.0 needs leave /1.0/
> put /3.0 needs leave /2.0/
> leave / needs leave /2.0/
> no put /1.0/0.0 needs put /0.0
> no put /2.0/1.0/0.0 needs put /2.0/0.0
> no put /3.0 needs put /1.0/1.0
> no leave / needs put /2.0/0.0
> no leave / needs leave /2.0/1.0/
"#;

// Four machines in batches of three, each on an interface with an address, and agents on two of them.
const MACHINES: &str = r#"{§,"resources":[
{"type":"Microsoft.Network/publicIPAddresses","apiVersion":"2023-05-01","name":"[format('ip{0}', copyIndex(1))]",
"copy":{"name":"addresses","count":4}},
{"type":"Microsoft.Network/networkInterfaces","apiVersion":"2023-05-01","name":"[format('nic{0}', copyIndex(1))]",
"copy":{"name":"interfaces","count":4},"dependsOn":["[format('ip{0}', copyIndex(1))]"]},
{"type":"Microsoft.Compute/virtualMachines","apiVersion":"2023-03-01","name":"[format('vm{0}', copyIndex(1))]",
"copy":{"name":"machines","count":4,"mode":"serial","batchSize":3},
"dependsOn":["[resourceId('Microsoft.Network/networkInterfaces', format('nic{0}', copyIndex(1)))]"]},
{"type":"Microsoft.Compute/virtualMachines/extensions","apiVersion":"2023-03-01",
"name":"[format('vm{0}/agent', copyIndex(1))]","copy":{"name":"agents","count":4},
"condition":"[less(copyIndex(), 2)]",
"dependsOn":["[format('Microsoft.Compute/virtualMachines/vm{0}', copyIndex(1))]"]},
{"type":"Microsoft.Network/loadBalancers","apiVersion":"2023-05-01","name":"balancer",
"dependsOn":["machines","agents"]}]}
> count 17
> task 4 put /0.3
> task 5 put /1.0
> task 9 put /2.0
> task 13 put /3.0
> task 14 put /3.1
> task 15 put /4.0
> put /1.2 needs put /0.2
> put /2.0 needs put /1.0
> put /2.3 needs put /1.3
> put /2.3 needs put /2.0
> put /2.3 needs put /2.1
> put /2.3 needs put /2.2
> put /3.1 needs put /2.1
> put /4.0 needs put /2.0
> put /4.0 needs put /2.3
> put /4.0 needs put /3.0
> put /4.0 needs put /3.1
> no put /1.2 needs put /0.1
> no put /2.2 needs put /2.0
> no put /3.1 needs put /2.0
> no put /4.0 needs put /3.2
> no put /4.0 needs put /1.0
"#;

// What is not declared, or is left away, is deleted: also a child whose parent is declared.
const COMPLETE: &str = r#"{§,"resources":[
{"type":"Microsoft.Storage/storageAccounts","apiVersion":"2023-01-01","name":"logs"},
{¶,"name":"secrets","properties":{«,"template":{§,"resources":[
{"type":"Microsoft.KeyVault/vaults","apiVersion":"2023-02-01","name":"keys"}]}}},
{"type":"Microsoft.Sql/servers","apiVersion":"2022-05-01","name":"db","condition":"[equals(1, 2)]"}]}
< /subscriptions/s/resourceGroups/g/providers/Microsoft.Storage/storageAccounts/LOGS
< /subscriptions/s/resourceGroups/g/providers/Microsoft.Storage/storageAccounts/logs/blobServices/one
< /subscriptions/s/resourceGroups/g/providers/Microsoft.Storage/storageAccounts/old
< /subscriptions/s/resourceGroups/g/providers/Microsoft.Storage/storageAccounts/old/blobServices/one
< /subscriptions/s/resourceGroups/g/providers/Microsoft.KeyVault/vaults/keys
< /subscriptions/s/resourceGroups/g/providers/Microsoft.Sql/servers/db
< /subscriptions/s/resourceGroups/other/providers/Microsoft.Web/sites/shop
> count 10
> task 0 enter /
> task 1 put /0.0
> task 2 enter /1.0/
> task 3 put /1.0/0.0
> task 4 leave /1.0/
> task 5 leave /
> task 6 delete microsoft.sql/servers/db
> task 7 delete microsoft.storage/storageaccounts/logs/blobservices/one
> task 8 delete microsoft.storage/storageaccounts/old
> task 9 delete microsoft.storage/storageaccounts/old/blobservices/one
> delete microsoft.sql/servers/db needs leave /
> delete microsoft.storage/storageaccounts/logs/blobservices/one needs leave /
> delete microsoft.storage/storageaccounts/old needs delete microsoft.storage/storageaccounts/old/blobservices/one
> no leave / needs delete microsoft.sql/servers/db
> no delete microsoft.storage/storageaccounts/old/blobservices/one needs delete microsoft.storage/storageaccounts/old
"#;

#[test]
fn estates(rt: HostRuntime) -> Result<(), Fail> {
    check_all(rt.alloc(), &[NESTED, MACHINES, COMPLETE])
}
