// Templates, and what is written of them.

use crate::rows::compare_all;
use std::test::Fail;

const TEMPLATES: &str = r#"{§,"resources":[]}
->
{§,"resources":[]}

{"$SCHEMA":"x/deploymentTemplate.json","ContentVersion":"1.0.0.0","Resources":[],"metadata":{"a":1},"apiProfile":"x",
    "functions":[],"parameters":{},"variables":{},"outputs":{}}
->
{§,"resources":[]}

{§,"parameters":{"b":{"TYPE":"SecureString","minlength":3,"maxLength":5,"metadata":{"description":"d"}},"a":{
    "type":"int","defaultValue":"[1]","allowedValues":[1,"[[x]",{"copy":"[[y]"},"[z"],"minValue":-1,
    "maxValue":7}},"resources":[]}
->
{§,"parameters":{"a":{"allowedValues":[1,"[[x]",{"copy":"[[y]"},"[z"],"defaultValue":"[1]","maxValue":7,
    "minValue":-1,"type":"int"},"b":{"maxLength":5,"metadata":{"description":"d"},"minLength":3,
    "type":"securestring"}},"resources":[]}

{§,"variables":{"z":[1],"copy":[{"NAME":"c","Count":2,"input":"[copyIndex('c')]"},{"name":"b","count":"[3]",
    "input":{}}]},"resources":[]}
->
{§,"resources":[],"variables":{"copy":[{"count":2,"input":"[copyIndex('c')]","name":"c"},{"count":"[3]",
    "input":{},"name":"b"}],"z":[1]}}

{§,"variables":{"Copy":null,"d":{"copy":[]}},"resources":[]}
->
{§,"resources":[],"variables":{"Copy":null,"d":{"copy":[]}}}

{§,"outputs":{"o":{"type":"Object","value":{},"condition":"[true()]","metadata":1},"p":{"type":"array","copy":{
    "input":1,"count":2}},"q":{"type":"SECUREOBJECT","value":{}},"r":{"type":"bool","value":true}},"resources":[]}
->
{§,"outputs":{"o":{"condition":"[true()]","metadata":1,"type":"object","value":{}},"p":{"copy":{"count":2,
    "input":1},"type":"array"},"q":{"type":"secureObject","value":{}},"r":{"type":"bool","value":true}},
    "resources":[]}

"#;

#[test]
fn parameters_variables_and_outputs_are_written(rt: HostRuntime) -> Result<(), Fail> {
    compare_all(rt.alloc(), TEMPLATES)
}

const RESOURCES: &str =
    r#"{§,"resources":[{"TYPE":"A/b","apiversion":"1","NAME":"n","Condition":false,
    "DependsOn":["x"],"COPY":{"name":"l","count":3,"mode":"serial","batchsize":2},"comments":"c","Metadata":2,
    "properties":{"copy":[]},"existing":true,"sku":"s"}]}
->
{§,"resources":[{"apiVersion":"1","condition":false,"copy":{"batchSize":2,"count":3,"mode":"serial",
    "name":"l"},"dependsOn":["x"],"existing":true,"metadata":2,"name":"n","properties":{"copy":[]},"sku":"s",
    "type":"A/b"}]}

{§,"resources":[{"type":"A/b","apiVersion":"1","name":"n","copy":{"name":"l","count":3,"mode":"serial"}},{
    "type":"A/b","apiVersion":"1","name":"n","copy":{"name":"k","count":801,"mode":"parallel","batchSize":9},
    "dependsOn":[],"resources":[]}]}
->
{§,"resources":[{"apiVersion":"1","copy":{"batchSize":1,"count":3,"mode":"serial","name":"l"},"name":"n",
    "type":"A/b"},{"apiVersion":"1","copy":{"count":801,"name":"k"},"name":"n","type":"A/b"}]}

{§,"resources":[{"type":"A/b","apiVersion":"1","name":"n","resources":[{"type":"c","apiVersion":"2","name":"m",
    "resources":[{"type":"d","apiVersion":"3","name":"k"}]}]}]}
->
{§,"resources":[{"apiVersion":"1","name":"n","resources":[{"apiVersion":"2","name":"m","resources":[{
    "apiVersion":"3","name":"k","type":"d"}],"type":"c"}],"type":"A/b"}]}

{§,"languageVersion":"2.0","resources":{"b":{"type":"A/b","apiVersion":"1","name":"n","existing":true},"a":{
    "type":"A/b","apiVersion":"1","name":"n","x":1,"existing":false}}}
->
{§,"languageVersion":"2.0","resources":{"a":{"apiVersion":"1","name":"n","type":"A/b","x":1},"b":{
    "apiVersion":"1","existing":true,"name":"n","type":"A/b"}}}

"#;

#[test]
fn resources_are_written(rt: HostRuntime) -> Result<(), Fail> {
    compare_all(rt.alloc(), RESOURCES)
}

const NESTED: &str =
    r#"{§,"resources":[{"type":"microsoft.resources/Deployments","apiVersion":"1","name":"n",
    "location":"x","properties":{"mode":"incremental","expressionEvaluationOptions":{"scope":"inner"},
    "parameters":{"q":{"copy":[{"name":"value","count":2,"input":7}]},"p":{"VALUE":1}},"template":{§,
    "languageVersion":"2.0","resources":{}}}}]}
->
{§,"resources":[{"apiVersion":"1","name":"n","properties":{"expressionEvaluationOptions":{"scope":"inner"},
    "mode":"Incremental","parameters":{"p":{"value":1},"q":{"copy":[{"count":2,"input":7,"name":"value"}]}},
    "template":{§,"languageVersion":"2.0","resources":{}}},"type":"microsoft.resources/Deployments"}]}

{§,"resources":[{"type":"Microsoft.Resources/deployments","apiVersion":"1","name":"n","properties":{
    "expressionEvaluationOptions":{"scope":"outer"},"parameters":{},"template":{§,"resources":[]}}}]}
->
{§,"resources":[{"apiVersion":"1","name":"n","properties":{"mode":"Incremental","template":{§,"resources":[]}},
    "type":"Microsoft.Resources/deployments"}]}

"#;

#[test]
fn nested_deployments_are_written(rt: HostRuntime) -> Result<(), Fail> {
    compare_all(rt.alloc(), NESTED)
}
