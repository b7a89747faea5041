// Nested deployments.

use crate::rows::compare_all;
use std::test::Fail;

const NESTED: &str = r#"{§,"resources":[{%}]} -> Missing /resources/0/properties
{§,"resources":[{%,"properties":{}}]} -> Missing /resources/0/properties/template
{§,"resources":[{%,"properties":7}]} -> WrongForm /resources/0/properties
{§,"resources":[{%,"properties":{"template":{¶}}}]} -> none
{§,"resources":[{%,"properties":{"template":{§}}}]} -> Missing /resources/0/properties/template/resources
{§,"resources":[{%,"properties":{"mode":"incremental","template":{¶}}}]} -> none
{§,"resources":[{%,"properties":{"mode":"Complete","template":{¶}}}]} -> WrongForm /resources/0/properties/mode
{§,"resources":[{%,"properties":{"x":1,"template":{¶}}}]} -> WrongForm /resources/0/properties/x
{§,"resources":[{%,"properties":{"expressionEvaluationOptions":{"scope":"other"},
    "template":{¶}}}]} -> WrongForm /resources/0/properties/expressionEvaluationOptions/scope
{§,"resources":[{%,"properties":{"parameters":{"a":{"value":"[x]"}},
    "template":{¶}}}]} -> BadExpression /resources/0/properties/parameters/a/value
{§,"resources":[{%,"properties":{"parameters":{"a":{}},
    "template":{¶}}}]} -> Missing /resources/0/properties/parameters/a/value
{§,"resources":[{%,"properties":{"parameters":{"a":{"copy":[{"name":"value","count":1,"input":1}]}},
    "template":{¶}}}]} -> none
{§,"resources":[{%,"properties":{"parameters":{"a":{"copy":[{"name":"x","count":1,"input":1}]}},
    "template":{¶}}}]} -> WrongForm /resources/0/properties/parameters/a/copy/0/name
{§,"resources":[{%,"properties":{"parameters":{"A":{"value":1},"a":{"value":1}},
    "template":{¶}}}]} -> WrongForm /resources/0/properties/parameters/a
{§,"parameters":{"p":{"type":"int"}},"resources":[{%,"properties":{"template":{¶,"outputs":{"o":{"type":"int",
    "value":"[parameters('p')]"}}}}}]} -> none
{§,"parameters":{"p":{"type":"int"}},"resources":[{%,
    "properties":{"expressionEvaluationOptions":{"scope":"inner"},"template":{¶,"outputs":{"o":{"type":"int",
    "value":"[parameters('p')]"}}}}}]} -> BadExpression /resources/0/properties/template/outputs/o/value
{§,"resources":[{%,"properties":{"expressionEvaluationOptions":{"scope":"inner"},"template":{¶,
    "variables":{"v":"[reference('x')]"}}}}]} -> ReferenceInVariable /resources/0/properties/template/variables/v
{§,"resources":[{%,"properties":{"template":{¶,"variables":{"v":"[reference('x')]","w":"[x]"}}}}]} -> none
{§,"resources":[{%,"properties":{"template":{¶,
    "variables":{"v":{"[x]":1}}}}}]} -> WrongForm /resources/0/properties/template/variables/v/[x]"#;

#[test]
fn nested_deployments_are_looked_at(rt: HostRuntime) -> Result<(), Fail> {
    compare_all(rt.alloc(), NESTED)
}
