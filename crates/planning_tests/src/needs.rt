// Needs by `dependsOn`, by scopes and by batches.

use crate::asking::check_all;
use std::rt::HostRuntime;
use std::test::Fail;

const BY_NAMES: &str = r#"{§,"resources":[{¤,"name":"x"},{¤,"name":"y","dependsOn":["X"]},
{¤,"name":"z","dependsOn":["[resourceId('a.b/c', 'x')]","a.b/c/y"]}]}
> tasks enter / put /0.0 put /1.0 put /2.0 leave /
> put /0.0 needs enter /
> put /1.0 needs put /0.0
> put /2.0 needs put /0.0
> put /2.0 needs put /1.0
> leave / needs put /0.0
> leave / needs enter /
> no put /0.0 needs put /1.0
> no put /1.0 needs put /2.0
> no enter / needs leave /

{§,"resources":[{¤,"name":"[format('a{0}', copyIndex())]","copy":{"name":"l","count":3}},
{¤,"name":"y","dependsOn":["l"]},{¤,"name":"z","dependsOn":["a1"]}]}
> put /1.0 needs put /0.0
> put /1.0 needs put /0.1
> put /1.0 needs put /0.2
> put /2.0 needs put /0.1
> no put /2.0 needs put /0.0
> no put /2.0 needs put /0.2

{§,"resources":[{¤,"name":"x","condition":false},{¤,"name":"y","dependsOn":["x"]}]}
> tasks enter / put /1.0 leave /
> put /1.0 needs enter /
> no put /1.0 needs put /0.0

{§,"resources":[{¤,"name":"x","resources":[{"type":"d","apiVersion":"1","name":"k","dependsOn":["x"]}]},
{¤,"name":"y","dependsOn":["x/k"]}]}
> tasks enter / put /0.0 put /1.0 put /2.0 leave /
> put /1.0 needs put /0.0
> put /2.0 needs put /1.0
> no put /2.0 needs put /0.0

{§,"languageVersion":"2.0","resources":{"s":{¤,"name":"[format('a{0}', copyIndex())]","copy":{"name":"l","count":2}},
"t":{¤,"name":"t","dependsOn":["s"]},
"u":{¤,"name":"u","dependsOn":["s[1]","t"]}}}
> put /1.0 needs put /0.0
> put /1.0 needs put /0.1
> put /2.0 needs put /0.1
> put /2.0 needs put /1.0
> no put /2.0 needs put /0.0

{§,"languageVersion":"2.0","resources":{"e":{¤,"name":"e","existing":true},"t":{¤,"name":"t","dependsOn":["e"]}}}
> tasks enter / put /1.0 leave /
"#;

const BY_BATCHES: &str = r#"{§,"resources":[{¤,"name":"[format('a{0}', copyIndex())]",
"copy":{"name":"l","count":5,"mode":"serial","batchSize":2}}]}
> put /0.2 needs put /0.0
> put /0.2 needs put /0.1
> put /0.3 needs put /0.0
> put /0.3 needs put /0.1
> put /0.4 needs put /0.2
> put /0.4 needs put /0.3
> no put /0.1 needs put /0.0
> no put /0.3 needs put /0.2
> no put /0.4 needs put /0.0

{§,"resources":[{¤,"name":"[format('a{0}', copyIndex())]","copy":{"name":"l","count":3,"mode":"serial","batchSize":1},
"condition":"[not(equals(copyIndex(), 1))]"}]}
> tasks enter / put /0.0 put /0.2 leave /
> no put /0.2 needs put /0.0

{§,"resources":[{¤,"name":"[format('a{0}', copyIndex())]","copy":{"name":"l","count":2}}]}
> no put /0.1 needs put /0.0

{§,"resources":[{¶,"name":"[format('m{0}', copyIndex())]","copy":{"name":"l","count":2,"mode":"serial","batchSize":1},
"properties":{«,"parameters":{"n":{"value":"[copyIndex()]"}},"template":{§,"parameters":{"n":{"type":"int"}},
"resources":[{¤,"name":"[format('x{0}', parameters('n'))]"}]}}}]}
> enter /0.1/ needs leave /0.0/
> no put /0.1/0.0 needs leave /0.0/
> no leave /0.1/ needs leave /0.0/
"#;

const BY_SCOPES: &str =
    r#"{§,"resources":[{¤,"name":"x"},{¶,"name":"m","dependsOn":["x"],"properties":{«,"template":{§,
"resources":[{¤,"name":"y"},{¤,"name":"z","dependsOn":["y"]}]}}},{¤,"name":"w","dependsOn":["m"]}]}
> tasks enter / put /0.0 enter /1.0/ put /1.0/0.0 put /1.0/1.0 leave /1.0/ put /2.0 leave /
> enter /1.0/ needs put /0.0
> enter /1.0/ needs enter /
> put /1.0/0.0 needs enter /1.0/
> put /1.0/1.0 needs put /1.0/0.0
> leave /1.0/ needs put /1.0/1.0
> leave /1.0/ needs enter /1.0/
> leave /1.0/ needs enter /
> put /2.0 needs leave /1.0/
> leave / needs leave /1.0/
> leave / needs enter /1.0/
> no put /1.0/0.0 needs put /0.0
> no put /1.0/0.0 needs enter /
> no put /2.0 needs enter /1.0/
> no leave / needs put /1.0/0.0

{§,"resources":[{¶,"name":"m","properties":{«,"template":{§,"resources":[{¤,"name":"x"}],
"outputs":{"n":{"type":"string","value":"known"}}}}},
{¤,"name":"[reference(resourceId('Microsoft.Resources/deployments', 'm')).outputs.n.value]"},
{¤,"name":"y","dependsOn":["known"]}]}
> tasks enter / enter /0.0/ put /0.0/0.0 leave /0.0/ put /1.0 put /2.0 leave /
> put /2.0 needs put /1.0
> no put /1.0 needs leave /0.0/

{§,"parameters":{"p":{"type":"string","defaultValue":"o"}},"resources":[{¶,"name":"m","properties":{«,
"parameters":{"p":{"value":"i"}},"template":{§,"parameters":{"p":{"type":"string"}},"resources":[],
"outputs":{"n":{"type":"string","value":"[parameters('p')]"}}}}},
{¤,"name":"[reference(resourceId('Microsoft.Resources/deployments', 'm')).outputs.n.value]"},
{¤,"name":"y","dependsOn":["i"]}]}
> put /2.0 needs put /1.0

{§,"parameters":{"p":{"type":"string","defaultValue":"o"}},"resources":[{¶,"name":"m","properties":{»,
"parameters":{"p":{"value":"i"}},"template":{§,"parameters":{"p":{"type":"string"}},"resources":[],
"outputs":{"n":{"type":"string","value":"[parameters('p')]"}}}}},
{¤,"name":"[reference(resourceId('Microsoft.Resources/deployments', 'm')).outputs.n.value]"},
{¤,"name":"y","dependsOn":["o"]}]}
> put /2.0 needs put /1.0
"#;

#[test]
fn needs(rt: HostRuntime) -> Result<(), Fail> {
    check_all(rt.alloc(), &[BY_NAMES, BY_BATCHES, BY_SCOPES])
}
