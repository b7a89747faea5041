// What waits for the state of a resource.

use crate::rows::check;
use std::rt::HostRuntime;
use std::test::Fail;

const STATES: &str = r#"{§,"resources":[{¤,"name":"x"}],"outputs":{"o":{"type":"string",
"value":"[reference(resourceId('a.b/c', 'x')).p]"},"r":{"type":"string","value":"[reference('x').p]"}}}
> offered / o = true
> output / o = waits for /subscriptions/s/resourcegroups/g/providers/a.b/c/x
> output / r = waits for /subscriptions/s/resourcegroups/g/providers/a.b/c/x
> tasks enter / put /0.0 leave /

{§,"resources":[{¤,"name":"x"},{¤,"name":"y","condition":"[reference(resourceId('a.b/c', 'x')).p]"}]}
> included / 1.0 = waits for /subscriptions/s/resourcegroups/g/providers/a.b/c/x
> name / 1.0 = "y"
> unanswered included / 1.0

{§,"resources":[{¤,"name":"[reference(resourceId('a.b/c', 'h')).p]"}]}
> name / 0.0 = waits for /subscriptions/s/resourcegroups/g/providers/a.b/c/h

{§,"resources":[{¶,"name":"m","properties":{«,"template":{§,"resources":[{¤,"name":"y"}],
"outputs":{"o":{"type":"string","value":"[reference('y').p]"}}}}},
{¤,"name":"[reference(resourceId('Microsoft.Resources/deployments', 'm')).outputs.o.value]"}]}
> output /0.0/ o = waits for /subscriptions/s/resourcegroups/g/providers/a.b/c/y
> name / 1.0 = waits for /subscriptions/s/resourcegroups/g/providers/a.b/c/y
> unanswered name / 1.0

{§,"resources":[{¤,"name":"x"},{¤,"name":"y","copy":{"name":"l",
"count":"[if(true(), 1, reference(resourceId('a.b/c', 'x')).p)]"}}]}
> count / 1.0 = 1
"#;

#[test]
fn states(rt: HostRuntime) -> Result<(), Fail> {
    check(rt.alloc(), STATES)
}
