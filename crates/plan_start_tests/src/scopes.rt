// Nested deployments, with expressions of their own scope and of the scope around.

use crate::rows::check;
use std::rt::HostRuntime;
use std::test::Fail;

const INNER: &str =
    r#"{§,"parameters":{"p":{"type":"string","defaultValue":"out"}},"variables":{"v":"around"},"resources":[
{¶,"name":"m","properties":{«,"parameters":{"q":{"value":"[concat(parameters('p'), variables('v'))]"}},
"template":{§,"parameters":{"q":{"type":"string"},
"d":{"type":"string","defaultValue":"[concat(parameters('q'), '!')]"}},
"variables":{"v":"[parameters('d')]"},"resources":[{¤,"name":"[variables('v')]"}],
"outputs":{"o":{"type":"string","value":"[parameters('q')]"}}}}}]}
> parameter / p = "out"
> parameter /0.0/ q = "outaround"
> parameter /0.0/ d = "outaround!"
> variable / v = "around"
> variable /0.0/ v = "outaround!"
> name / 0.0 = "m"
> name /0.0/ 0.0 = "outaround!"
> output /0.0/ o = "outaround"
> instances 2
> tasks enter / enter /0.0/ put /0.0/0.0 leave /0.0/ leave /

{§,"parameters":{"p":{"type":"string","defaultValue":"out"}},"resources":[{¶,"name":"m","properties":{«,"template":{§,
"parameters":{"p":{"type":"string","defaultValue":"in"}},"resources":[{¤,"name":"[parameters('p')]"}]}}}]}
> parameter / p = "out"
> parameter /0.0/ p = "in"
> name /0.0/ 0.0 = "in"

{§,"resources":[{¶,"name":"[format('m{0}', copyIndex())]","copy":{"name":"l","count":2},"properties":{«,
"template":{§,"resources":[{¤,"name":"[format('x{0}', copyIndex('l'))]"}]}}}]}
> name / 0.1 = "m1"
> name /0.1/ 0.0 = none

{§,"resources":[{¶,"name":"m","properties":{«,"parameters":{"q":{"value":3}},"template":{§,
"parameters":{"q":{"type":"string"}},"resources":[{¤,"name":"[parameters('q')]"}]}}}]}
> parameter /0.0/ q = none
> name /0.0/ 0.0 = none
"#;

#[test]
fn inner(rt: HostRuntime) -> Result<(), Fail> {
    check(rt.alloc(), INNER)
}

const OUTER: &str =
    r#"{§,"variables":{"v":"out"},"resources":[{¶,"name":"[format('m{0}', copyIndex())]",
"copy":{"name":"l","count":2},"properties":{»,"template":{§,"variables":{"v":"in"},
"resources":[{¤,"name":"[format('{0}{1}', variables('v'), copyIndex('l'))]"}]}}}]}
> variable / v = "out"
> no variable /0.0/ v
> name / 0.0 = "m0"
> name / 0.1 = "m1"
> name /0.0/ 0.0 = "out0"
> name /0.1/ 0.0 = "out1"
> instances 4
> tasks enter / enter /0.0/ put /0.0/0.0 leave /0.0/ enter /0.1/ put /0.1/0.0 leave /0.1/ leave /

{§,"variables":{"v":"out"},"resources":[{¶,"name":"m","properties":{«,"template":{§,"variables":{"v":"between"},
"resources":[{¶,"name":"n","properties":{»,"template":{§,"variables":{"v":"in"},
"resources":[{¤,"name":"[variables('v')]"}]}}}]}}}]}
> variable /0.0/ v = "between"
> no variable /0.0/0.0/ v
> name /0.0/0.0/ 0.0 = "between"
> tasks enter / enter /0.0/ enter /0.0/0.0/ put /0.0/0.0/0.0 leave /0.0/0.0/ leave /0.0/ leave /
"#;

#[test]
fn outer(rt: HostRuntime) -> Result<(), Fail> {
    check(rt.alloc(), OUTER)
}

const LEFT_AWAY: &str =
    r#"{§,"resources":[{¶,"name":"m","condition":false,"properties":{«,"template":{§,
"resources":[{¤,"name":"x"}]}}},{¤,"name":"y"}]}
> included / 0.0 = false
> name / 0.0 = "m"
> no count /0.0/ 0.0
> no name /0.0/ 0.0
> instances 2
> tasks enter / put /1.0 leave /

{§,"resources":[{¶,"name":"m","copy":{"name":"l","count":0},"properties":{«,"template":{§,
"resources":[{¤,"name":"x"}]}}}]}
> no name / 0.0
> no name /0.0/ 0.0
> instances 0
> tasks enter / leave /
"#;

#[test]
fn left_away(rt: HostRuntime) -> Result<(), Fail> {
    check(rt.alloc(), LEFT_AWAY)
}

const OUTPUTS: &str =
    r#"{§,"resources":[],"outputs":{"a":{"type":"int","value":3,"condition":false},
"b":{"type":"int","value":"[add(1, 2)]"},"c":{"type":"int","value":"[string(1)]"},
"d":{"type":"array","copy":{"count":2,"input":"[copyIndex()]"}},"e":{"type":"int","value":1,"condition":"[string(1)]"}}}
> offered / a = false
> no output / a
> offered / b = true
> output / b = 3
> output / c = none
> output / d = [0,1]
> offered / e = none
> no output / e

{§,"resources":[{¶,"name":"m","properties":{«,"template":{§,"resources":[{¤,"name":"y"}],
"outputs":{"o":{"type":"int","value":2}}}}},{¤,"name":"[format('z{0}', copyIndex())]",
"copy":{"name":"l","count":"[reference(resourceId('Microsoft.Resources/deployments', 'm')).outputs.o.value]"}}]}
> output /0.0/ o = 2
> count / 1.0 = 2
> instances 4
> tasks enter / enter /0.0/ put /0.0/0.0 leave /0.0/ put /1.0 put /1.1 leave /

{§,"languageVersion":"2.0","resources":{"m":{¶,"name":"n","properties":{«,"template":{§,"resources":[],
"outputs":{"o":{"type":"string","value":"w"}}}}},
"x":{¤,"name":"[reference(resourceId('Microsoft.Resources/deployments', 'n')).outputs.o.value]"},
"y":{¤,"name":"y","condition":"[equals(reference('m').outputs.o.value, 'w')]"},
"z":{¤,"name":"[reference('m').outputs.o.value]"}}}
> name / 1.0 = "w"
> included / 2.0 = true
> name / 3.0 = none
"#;

#[test]
fn outputs(rt: HostRuntime) -> Result<(), Fail> {
    check(rt.alloc(), OUTPUTS)
}
