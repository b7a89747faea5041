// The members of a template.

use crate::rows::compare_all;
use std::test::Fail;

const HEADERS: &str = r#"{¶} -> none
[] -> WrongForm 
"x" -> WrongForm 
{} -> Missing /$schema
{"$schema":"x/deploymentTemplate.json","resources":[]} -> Missing /contentVersion
{§} -> Missing /resources
{"contentVersion":"1","resources":{}} -> Missing /$schema
{"contentVersion":"1","$schema":"x/DEPLOYMENTTEMPLATE.JSON#","resources":[]} -> none
{"contentVersion":"1","$schema":"deploymentTemplate.json","resources":[]} -> WrongForm /$schema
{"contentVersion":"1","$schema":7,"resources":[]} -> WrongForm /$schema
{"contentVersion":1,"$schema":"x/deploymentTemplate.json","resources":[]} -> WrongForm /contentVersion
{"CONTENTVERSION":"1","$SCHEMA":"x/deploymentTemplate.json","Resources":[]} -> none
{§,"Resources":[],"resources":[]} -> WrongForm /resources
{¶,"apiProfile":7,"metadata":["[foo()]"],"functions":[]} -> none
{¶,"functions":{}} -> none
{¶,"functions":[1]} -> WrongForm /functions
{¶,"definitions":{}} -> WrongForm /definitions
{¶,"zebra":1,"definitions":{}} -> WrongForm /definitions
{§,"resources":{},"languageVersion":"2.0"} -> none
{§,"resources":{},"languageVersion":"1.9"} -> WrongForm /languageVersion
{§,"resources":{}} -> WrongForm /resources
{¶,"languageVersion":"2.0"} -> WrongForm /resources
{¶,"outputs":[],"parameters":[],"variables":[]} -> WrongForm /outputs
{¶,"parameters":[],"variables":[]} -> WrongForm /parameters
{¶,"variables":[]} -> WrongForm /variables
{§,"resources":7,"variables":[]} -> WrongForm /resources"#;

#[test]
fn members_of_templates_are_looked_at(rt: HostRuntime) -> Result<(), Fail> {
    compare_all(rt.alloc(), HEADERS)
}

const PARTS: &str = r#"{¶,"parameters":{"a":{"type":"STRING"},"b":{"type":"secureobject",
    "defaultValue":{"x":"[a]"}}}} -> BadExpression /parameters/b/defaultValue/x
{¶,"parameters":{"a":{}}} -> Missing /parameters/a/type
{¶,"parameters":{"a":{"type":"text"}}} -> WrongForm /parameters/a/type
{¶,"parameters":{"a":1}} -> WrongForm /parameters/a
{¶,"parameters":{"A":{"type":"int"},"a":{"type":"int"}}} -> WrongForm /parameters/a
{¶,"parameters":{"a":{"type":"int","minValue":1,"maxValue":"2"}}} -> WrongForm /parameters/a/maxValue
{¶,"parameters":{"a":{"type":"int","allowedValues":{}}}} -> WrongForm /parameters/a/allowedValues
{¶,"parameters":{"a":{"type":"int","allowedValues":["[[x]",{"b":"[x"},
    ["[x]"]]}}} -> WrongForm /parameters/a/allowedValues/2/0
{¶,"parameters":{"a":{"type":"int",
    "defaultValue":"[reference('x')]"}}} -> ReferenceInVariable /parameters/a/defaultValue
{¶,"parameters":{"a":{"type":"int","other":1,"metadata":{"[x]":1}}}} -> WrongForm /parameters/a/other
{¶,"outputs":{"o":{"type":"int","value":"[parameters('a')]"}}} -> BadExpression /outputs/o/value
{¶,"outputs":{"o":{"type":"int","value":"[parameters('A')]"}},"parameters":{"a":{"type":"int"}}} -> none
{¶,"outputs":{"o":{"type":"int","value":"[parameters(concat('A'))]"}}} -> none
{¶,"outputs":{"o":{"type":"int"}}} -> Missing /outputs/o/value
{¶,"outputs":{"o":{"value":1}}} -> Missing /outputs/o/type
{¶,"outputs":{"o":{"type":"array","copy":{"count":2,"input":"[copyIndex()]"}}}} -> none
{¶,"outputs":{"o":{"type":"array","value":1,"copy":{"count":2,"input":1}}}} -> WrongForm /outputs/o/value
{¶,"outputs":{"o":{"type":"array","copy":{"count":2}}}} -> Missing /outputs/o/copy/input
{¶,"outputs":{"o":{"type":"array","copy":{"count":2,"input":1,"name":"x"}}}} -> WrongForm /outputs/o/copy/name
{¶,"outputs":{"o":{"type":"int","value":{"[x]":1},"condition":"[x]"}}} -> BadExpression /outputs/o/condition
{¶,"variables":{"v":"[reference('x')]"}} -> ReferenceInVariable /variables/v
{¶,"variables":{"v":"[variables('w')]","w":1}} -> none
{¶,"variables":{"v":"[variables('w')]","copy":[{"name":"W","count":1,"input":1}]}} -> none
{¶,"variables":{"v":1,"copy":[{"name":"V","count":1,"input":1}]}} -> WrongForm /variables/copy/0/name
{¶,"variables":{"v":1,"copy":{}}} -> WrongForm /variables/copy
{¶,"variables":{"Copy":"[variables('copy')]"}} -> none
{¶,"variables":{"copy":[{"name":"a","count":1,"input":1},{"name":"A","count":1,
    "input":1}]}} -> WrongForm /variables/copy/1/name"#;

#[test]
fn parameters_variables_and_outputs_are_looked_at(rt: HostRuntime) -> Result<(), Fail> {
    compare_all(rt.alloc(), PARTS)
}
