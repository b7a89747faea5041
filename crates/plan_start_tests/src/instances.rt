// Instances of resources: conditions, loops and names.

use crate::rows::check;
use std::rt::HostRuntime;
use std::test::Fail;

const CONDITIONS: &str = r#"{§,"resources":[]}
> instances 0
> tasks enter / leave /
> keys

{§,"resources":[{¤,"name":"x"}]}
> included / 0.0 = true
> name / 0.0 = "x"
> instances 1
> tasks enter / put /0.0 leave /
> keys /subscriptions/s/resourcegroups/g/providers/a.b/c/x

{§,"parameters":{"p":{"type":"bool","defaultValue":false}},"resources":[
{¤,"name":"x","condition":"[parameters('p')]"},{¤,"name":"y","condition":"[not(parameters('P'))]"}]}
> parameter / p = false
> included / 0.0 = false
> included / 1.0 = true
> name / 0.0 = "x"
> name / 1.0 = "y"
> instances 2
> tasks enter / put /1.0 leave /
> keys /subscriptions/s/resourcegroups/g/providers/a.b/c/y

{§,"resources":[{¤,"name":"x","condition":"[string(true())]"}]}
> included / 0.0 = none
> unanswered included / 0.0

{§,"resources":[{¤,"name":"x","condition":"true"}]}
> included / 0.0 = none

{§,"resources":[{¤,"name":"x","condition":false,"resources":[{"type":"d","apiVersion":"1","name":"k"},
{"type":"d","apiVersion":"1","name":"l","condition":false}]}]}
> included / 0.0 = false
> included / 1.0 = true
> included / 2.0 = false
> name / 1.0 = "x/k"
> tasks enter / put /1.0 leave /
> keys /subscriptions/s/resourcegroups/g/providers/a.b/c/x/d/k
"#;

#[test]
fn conditions(rt: HostRuntime) -> Result<(), Fail> {
    check(rt.alloc(), CONDITIONS)
}

const LOOPS: &str = r#"{§,"variables":{"n":2},"resources":[
{¤,"name":"[format('a{0}', copyIndex())]","copy":{"name":"l","count":"[variables('n')]"}},
{¤,"name":"b","copy":{"name":"k","count":0}},
{¤,"name":"[format('c{0}', copyIndex('m', 5))]","copy":{"name":"m","count":1}}]}
> count / 0.0 = 2
> name / 0.0 = "a0"
> name / 0.1 = "a1"
> no name / 0.2
> count / 1.0 = 0
> no included / 1.0
> no name / 1.0
> count / 2.0 = 1
> name / 2.0 = "c5"
> instances 3
> tasks enter / put /0.0 put /0.1 put /2.0 leave /

{§,"resources":[{¤,"name":"[format('a{0}', copyIndex())]","copy":{"name":"l","count":3},
"condition":"[equals(copyIndex(), 1)]"}]}
> included / 0.0 = false
> included / 0.1 = true
> included / 0.2 = false
> name / 0.2 = "a2"
> instances 3
> tasks enter / put /0.1 leave /
> keys /subscriptions/s/resourcegroups/g/providers/a.b/c/a1

{§,"resources":[{¤,"name":"a","copy":{"name":"l","count":"[string(2)]"}}]}
> count / 0.0 = none
> no included / 0.0
> unanswered count / 0.0

{§,"resources":[{¤,"name":"a","copy":{"name":"l","count":"[sub(1, 2)]"}}]}
> count / 0.0 = none

{§,"resources":[{¤,"name":"a","copy":{"name":"l","count":"[add(800, 1)]"}}]}
> count / 0.0 = none

{§,"resources":[{¤,"name":"[concat('a', copyIndex())]","copy":{"name":"l","count":4,"mode":"serial","batchSize":2}}]}
> count / 0.0 = 4
> tasks enter / put /0.0 put /0.1 put /0.2 put /0.3 leave /

{§,"languageVersion":"2.0","resources":{"s":{¤,"name":"x","existing":true},"t":{¤,"name":"y"}}}
> no count / 0.0
> no name / 0.0
> count / 1.0 = 1
> name / 1.0 = "y"
> instances 1
> tasks enter / put /1.0 leave /
"#;

#[test]
fn loops(rt: HostRuntime) -> Result<(), Fail> {
    check(rt.alloc(), LOOPS)
}

const NAMES: &str = r#"{§,"resources":[{¤,"name":"[add(1, 2)]"}]}
> name / 0.0 = none
> included / 0.0 = true
> unanswered name / 0.0

{§,"resources":[{¤,"name":"[createArray('x')]","condition":false}]}
> name / 0.0 = none
> included / 0.0 = false
> unanswered name / 0.0

{§,"resources":[{¤,"name":"x/y"}]}
> name / 0.0 = none

{§,"resources":[{¤,"name":""}]}
> name / 0.0 = none

{§,"resources":[{"type":"a.b/c/d","apiVersion":"1","name":"[format('{0}/{1}', 'x', 'y')]"}]}
> name / 0.0 = "x/y"
> keys /subscriptions/s/resourcegroups/g/providers/a.b/c/x/d/y

{§,"resources":[{¤,"name":"[substring('x', 2, 1)]"}]}
> name / 0.0 = none

{§,"resources":[{¤,"name":"[concat(deployment().name, '-', resourceGroup().location)]"}]}
> name / 0.0 = "first-westeurope"
"#;

#[test]
fn names(rt: HostRuntime) -> Result<(), Fail> {
    check(rt.alloc(), NAMES)
}
