// Resources.

use crate::rows::compare_all;
use std::test::Fail;

const RESOURCES: &str = r#"{§,"resources":[{@}]} -> none
{§,"resources":[1]} -> WrongForm /resources/0
{§,"resources":[{}]} -> Missing /resources/0/apiVersion
{§,"resources":[{"apiVersion":"1"}]} -> Missing /resources/0/name
{§,"resources":[{"apiVersion":"1","name":"n"}]} -> Missing /resources/0/type
{§,"resources":[{"apiVersion":"[1]","name":"n","type":"t"}]} -> WrongForm /resources/0/apiVersion
{§,"resources":[{"apiVersion":"1","name":"n","type":"[[t]"}]} -> WrongForm /resources/0/type
{§,"resources":[{"apiVersion":"1","name":"[x]","type":"t"}]} -> BadExpression /resources/0/name
{§,"resources":[{"apiVersion":"1","name":7,"type":"t"}]} -> none
{§,"resources":[{@},{@,"scope":"x"}]} -> WrongForm /resources/1/scope
{§,"resources":[{@,"SubscriptionId":"x"}]} -> WrongForm /resources/0/SubscriptionId
{§,"resources":[{@,"Name":"x"}]} -> WrongForm /resources/0/name
{§,"resources":[{@,"Sku":"x","sku":"[x]"}]} -> BadExpression /resources/0/sku
{§,"resources":[{@,"[x]":"x"}]} -> WrongForm /resources/0/[x]
{§,"resources":[{@,"existing":7}]} -> none
{§,"resources":[{@,"dependsOn":["a","[x]"],"metadata":"[x]",
    "comments":"[x]"}]} -> BadExpression /resources/0/dependsOn/1
{§,"resources":[{@,"dependsOn":"a"}]} -> WrongForm /resources/0/dependsOn
{§,"resources":[{@,"condition":"[parameters('x')]"}]} -> BadExpression /resources/0/condition
{§,"resources":[{@,"copy":{"name":"a","count":801}}]} -> none
{§,"resources":[{@,"copy":{"name":"a"}}]} -> Missing /resources/0/copy/count
{§,"resources":[{@,"copy":{"name":"a","count":1,"mode":"serial","batchSize":800}}]} -> none
{§,"resources":[{@,"copy":{"name":"a","count":1,"mode":"Serial"}}]} -> WrongForm /resources/0/copy/mode
{§,"resources":[{@,"copy":{"name":"a","count":1,"batchSize":0}}]} -> WrongForm /resources/0/copy/batchSize
{§,"resources":[{@,"copy":{"name":"a","count":1,"batchSize":801}}]} -> Limit Batch 801
{§,"resources":[{@,"copy":{"name":"a","count":1,"batchSize":"1"}}]} -> WrongForm /resources/0/copy/batchSize
{§,"resources":[{@,"copy":{"name":"a","count":1}},{@,"copy":{"name":"A",
    "count":1}}]} -> WrongForm /resources/1/copy/name
{§,"resources":[{@,"copy":{"name":"a","count":1},"resources":[]}]} -> none
{§,"resources":[{@,"copy":{"name":"a","count":1},"resources":[{"type":"d","apiVersion":"1",
    "name":"m"}]}]} -> WrongForm /resources/0/copy
{§,"resources":[{@,"resources":[{"type":"d","apiVersion":"1","name":"m"}]}]} -> none
{§,"resources":[{@,"resources":[{"type":"d/e","apiVersion":"1",
    "name":"m"}]}]} -> WrongForm /resources/0/resources/0/type
{§,"resources":[{@,"resources":[{"type":"d","apiVersion":"1",
    "name":"m/n"}]}]} -> WrongForm /resources/0/resources/0/name
{§,"resources":[{@,"resources":[{"type":"d","apiVersion":"1","name":"[concat('m/n')]"}]}]} -> none
{§,"resources":[{@,"resources":[{"type":"d","apiVersion":"1","name":"m","copy":{"name":"a",
    "count":1}}]}]} -> WrongForm /resources/0/resources/0/copy
{§,"resources":[{@,"resources":[{"type":"d","apiVersion":"1","name":"m",
    "resources":[{}]}]}]} -> Missing /resources/0/resources/0/resources/0/apiVersion
{§,"resources":[{@,"resources":{}}]} -> WrongForm /resources/0/resources"#;

#[test]
fn resources_are_looked_at(rt: HostRuntime) -> Result<(), Fail> {
    compare_all(rt.alloc(), RESOURCES)
}

const SYMBOLS: &str = r#"{§,"languageVersion":"2.0","resources":{"a":{@},"B_1:c":{@}}} -> none
{§,"languageVersion":"2.0","resources":{"":{@}}} -> WrongForm /resources/
{§,"languageVersion":"2.0","resources":{"a-b":{@}}} -> WrongForm /resources/a-b
{§,"languageVersion":"2.0","resources":{"a":{@},"A":{@}}} -> none
{§,"languageVersion":"2.0","resources":{"a":{@,"existing":true}}} -> none
{§,"languageVersion":"2.0","resources":{"a":{@,"existing":"true"}}} -> WrongForm /resources/a/existing
{§,"languageVersion":"2.0","resources":{"a":{@,"Existing":true,
    "existing":true}}} -> WrongForm /resources/a/existing
{§,"languageVersion":"2.0","resources":{"a":{@,"resources":[]}}} -> WrongForm /resources/a/resources
{§,"languageVersion":"2.0","resources":{"a":{@,"copy":{"name":"x","count":1}},"b":{@,"copy":{"name":"X",
    "count":1}}}} -> WrongForm /resources/b/copy/name
{§,"languageVersion":"2.0","resources":{"a":{"type":"microsoft.resources/DEPLOYMENTS","apiVersion":"1",
    "name":"n","existing":true}}} -> WrongForm /resources/a/existing"#;

#[test]
fn resources_by_symbolic_names_are_looked_at(rt: HostRuntime) -> Result<(), Fail> {
    compare_all(rt.alloc(), SYMBOLS)
}
