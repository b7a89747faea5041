// Cells that wait for one another.

use crate::rows::check;
use std::rt::HostRuntime;
use std::test::Fail;

const CIRCLES: &str =
    r#"{§,"variables":{"a":"[variables('b')]","b":"[variables('c')]","c":"[variables('a')]","d":"[variables('a')]"},
"resources":[{¤,"name":"x","condition":"[variables('d')]"}]}
> circle variable / a
> circle variable / b
> circle variable / c
> no circle variable / d

{§,"variables":{"a":"[variables('a')]"},"resources":[]}
> circle variable / a

{§,"parameters":{"p":{"type":"string","defaultValue":"[variables('v')]"}},"variables":{"v":"[parameters('p')]"},
"resources":[]}
> circle parameter / p
> circle variable / v

{§,"resources":[{¶,"name":"m","properties":{«,"parameters":{"q":{
"value":"[reference(resourceId('Microsoft.Resources/deployments', 'm')).outputs.o.value]"}},"template":{§,
"parameters":{"q":{"type":"string"}},"resources":[],
"outputs":{"o":{"type":"string","value":"[parameters('q')]"}}}}}]}
> circle parameter /0.0/ q
> circle output /0.0/ o

{§,"variables":{"a":"[if(true(), 1, variables('b'))]","b":"[variables('a')]"},"resources":[]}
> variable / a = 1
> variable / b = 1
"#;

#[test]
fn circles(rt: HostRuntime) -> Result<(), Fail> {
    check(rt.alloc(), CIRCLES)
}
