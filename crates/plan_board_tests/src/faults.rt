// Deployments that fail.

use crate::rows::check;
use std::rt::HostRuntime;
use std::test::Fail;

const VALUES: &str = r#"{§,"parameters":{"use":{"type":"bool","defaultValue":true}},"resources":[
{¤,"name":"st","properties":{}}],"outputs":{"o":{"type":"string",
"value":"[if(parameters('use'), reference(resourceId('a.b/c','st')).no.deep, 'none')]"}}}
> begin 1 0 @/a.b/c/st {"properties":{}}
> stored 1
> Failed first: NoValue: leave /: /outputs/o/value

{§,"resources":[{¤,"name":"one","properties":{"x":1}}],
"outputs":{"z":{"type":"string","value":"[reference(resourceId('a.b/c','one')).x]"}}}
> begin 1 0 @/a.b/c/one {"properties":{"x":1}}
> stored 1
> Failed first: InvalidParameter: leave /: WrongType z

{§,"resources":[{¤,"name":"one","properties":{"x":7}},
{¶,"name":"inner","properties":{«,"parameters":{"p":{"value":"[reference(resourceId('a.b/c','one')).x]"}},
"template":{§,"parameters":{"p":{"type":"int","maxValue":5}},
"resources":[{¤,"name":"two","properties":{"y":"[parameters('p')]"}}]}}}]}
> begin 1 0 @/a.b/c/one {"properties":{"x":7}}
> stored 1
> Failed first: InvalidParameter: enter /resources/1/properties/template: OutOfBounds p

{§,"resources":[{¤,"name":"one","properties":{"x":1}},
{¶,"name":"[format('m{0}', copyIndex())]","copy":{"name":"d","count":2},"properties":{«,
"parameters":{"p":{"value":"[add(reference(resourceId('a.b/c','one')).x, copyIndex())]"}},
"template":{§,"parameters":{"p":{"type":"int","maxValue":1}},"resources":[]}}}]}
> begin 1 0 @/a.b/c/one {"properties":{"x":1}}
> stored 1
> Failed first: InvalidParameter: enter /resources/1[1]/properties/template: OutOfBounds p
"#;

// A value is none where its text has none, and an output also where its condition is not true or false.
const NO_VALUES: &str =
    r#"{§,"languageVersion":"2.0","resources":{"s":{¤,"name":"[format('a{0}', copyIndex())]",
"copy":{"name":"l","count":2},"properties":{"i":"[copyIndex()]"}}},
"outputs":{"o":{"type":"int","value":"[reference('s').i]"}}}
> begin 1 0 @/a.b/c/a0 {"properties":{"i":0}}
> begin 2 1 @/a.b/c/a1 {"properties":{"i":1}}
> stored 2
> stored 1
> Failed first: NoValue: leave /: /outputs/o/value

{§,"resources":[{¤,"name":"one","properties":{"x":1}}],"outputs":{"o":{"type":"int",
"condition":"[reference(resourceId('a.b/c','one')).x]","value":1}}}
> begin 1 0 @/a.b/c/one {"properties":{"x":1}}
> stored 1
> Failed first: NoValue: leave /: /outputs/o/value

{§,"resources":[{¤,"name":"one","properties":{"x":1}},
{¶,"name":"m","properties":{«,"parameters":{"p":{"value":"[reference(resourceId('a.b/c','one')).no]"}},
"template":{§,"parameters":{"p":{"type":"int"}},"resources":[{¤,"name":"two"}]}}}]}
> begin 1 0 @/a.b/c/one {"properties":{"x":1}}
> stored 1
> Failed first: NoValue: enter /resources/1/properties/template: /resources/1/properties/template/parameters/p

{§,"resources":[{¤,"name":"one","properties":{"x":1}},
{¶,"name":"m","properties":{«,"parameters":{"p":{"value":"[reference(resourceId('a.b/c','one'))]"}},
"template":{§,"parameters":{"p":{"type":"object"}},"variables":{"v":"[parameters('p').no]"},"resources":[]}}}]}
> begin 1 0 @/a.b/c/one {"properties":{"x":1}}
> stored 1
> Failed first: NoValue: enter /resources/1/properties/template: /resources/1/properties/template/variables/v

{§,"resources":[{¶,"name":"m","properties":{«,"template":{§,"resources":[{¤,"name":"a"}],
"outputs":{"o":{"type":"int","value":"[div(1, 0)]"}}}}}]}
> begin 2 0 @/a.b/c/a {}
> stored 2
> Failed first: NoValue: leave /resources/0/properties/template: /resources/0/properties/template/outputs/o/value
"#;

// A value that is none is reported before a circle.
const CIRCLE: &str =
    r#"{§,"resources":[{¤,"name":"a","properties":{"x":"[reference(resourceId('a.b/c','b')).y]"}},
{¤,"name":"b","properties":{"y":"[reference(resourceId('a.b/c','a')).x]"}}]}
> Failed first: CircularDependency: @/a.b/c/a @/a.b/c/b

{§,"resources":[{¤,"name":"a","properties":{"x":"[reference(resourceId('a.b/c','b')).y]"}},
{¤,"name":"b","properties":{"y":"[reference(resourceId('a.b/c','a')).x]"}},
{¶,"name":"m","properties":{«,"template":{§,"resources":[{¤,"name":"st","properties":{}}],
"outputs":{"o":{"type":"string","value":"[reference(resourceId('a.b/c','st')).no]"}}}}}]}
> begin 4 0 @/a.b/c/st {"properties":{}}
> stored 4
> Failed first: NoValue: leave /resources/2/properties/template: /resources/2/properties/template/outputs/o/value
"#;

const REFUSALS: &str = r#"{§,"resources":[{¤,"name":"one"},{¤,"name":"quota"},{¤,"name":"three"}]}
> begin 1 0 @/a.b/c/one {}
> begin 2 1 @/a.b/c/quota {}
> refused 2 Quota
> stored 1
> Failed first: Quota: @/a.b/c/quota

{§,"resources":[{¤,"name":"quota"},{¤,"name":"two"},{¤,"name":"three"}]}
> begin 1 0 @/a.b/c/quota {}
> begin 2 1 @/a.b/c/two {}
> stored 2
> begin 3 1 @/a.b/c/three {}
> stored 3
> refused 1 Quota
> Failed first: Quota: @/a.b/c/quota

{§,"resources":[{¤,"name":"quota"},{"type":"a.b/e","apiVersion":"1","name":"quota"}]}
> begin 1 0 @/a.b/c/quota {}
> begin 2 1 @/a.b/e/quota {}
> refused 2 Quota
> refused 1 Quota
> Failed first: Quota: @/a.b/e/quota
"#;

#[test]
fn values_have_faults(rt: HostRuntime) -> Result<(), Fail> {
    check(rt.alloc(), VALUES)
}

#[test]
fn values_that_are_none_are_faults(rt: HostRuntime) -> Result<(), Fail> {
    check(rt.alloc(), NO_VALUES)
}

#[test]
fn states_that_wait_for_one_another_are_a_circle(rt: HostRuntime) -> Result<(), Fail> {
    check(rt.alloc(), CIRCLE)
}

#[test]
fn nothing_begins_after_a_refusal(rt: HostRuntime) -> Result<(), Fail> {
    check(rt.alloc(), REFUSALS)
}
