// Why templates have no plan.

use crate::asking::check_all;
use std::rt::HostRuntime;
use std::test::Fail;

const NOT_KNOWN: &str =
    r#"{§,"resources":[{¤,"name":"x"},{¤,"name":"[reference(resourceId('a.b/c', 'x')).name]"}]}
> NotStartKnown /resources/1/name

{§,"resources":[{¤,"name":"x"},{¤,"name":"y","condition":"[reference(resourceId('a.b/c', 'x')).on]"}]}
> NotStartKnown /resources/1/condition

{§,"resources":[{¤,"name":"x"},{¤,"name":"[format('y{0}', copyIndex())]",
"copy":{"name":"l","count":"[reference(resourceId('a.b/c', 'x')).count]"}}]}
> NotStartKnown /resources/1/copy/count

{§,"resources":[{¤,"name":"x"},{¤,"name":"y","dependsOn":["x","[reference(resourceId('a.b/c', 'x')).next]"]}]}
> NotStartKnown /resources/1/dependsOn/1

{§,"resources":[{¤,"name":"x"},{¶,"name":"m","properties":{«,"parameters":{"p":{"value":"[reference('x').name]"}},
"template":{§,"parameters":{"p":{"type":"string"}},"resources":[{¤,"name":"[parameters('p')]"}]}}}]}
> NotStartKnown /resources/1/properties/template/resources/0/name

{§,"resources":[{¶,"name":"m","properties":{«,"template":{§,"resources":[{¤,"name":"x"}],
"outputs":{"n":{"type":"string","value":"[reference('x').n]"}}}}},
{¤,"name":"[reference(resourceId('Microsoft.Resources/deployments', 'm')).outputs.n.value]"}]}
> NotStartKnown /resources/1/name

{§,"languageVersion":"2.0","resources":{"s":{¤,"name":"[format('a{0}', copyIndex())]","copy":{"name":"l","count":2}},
"t":{¤,"name":"t","condition":"[reference('s[1]').on]"}}}
> NotStartKnown /resources/t/condition

{§,"resources":[{¤,"name":"[reference(resourceId('a.b/c', 'held')).name]"}]}
< /subscriptions/s/resourceGroups/g/providers/a.b/c/held
> NotStartKnown /resources/0/name
"#;

const NO_VALUE: &str = r#"{§,"parameters":{"p":{"type":"object","defaultValue":{}}},
"resources":[{¤,"name":"[parameters('p').x]"}]}
> NoValue /resources/0/name

{§,"parameters":{"p":{"type":"object","defaultValue":{}}},
"resources":[{¤,"name":"[parameters('p').x]","condition":false}]}
> NoValue /resources/0/name

{§,"resources":[{¤,"name":"x/y"}]}
> NoValue /resources/0/name

{§,"languageVersion":"2.0","resources":{"s":{¤,"name":"x/y"}}}
> NoValue /resources/s/name

{§,"resources":[{¤,"name":"x"},{¤,"name":"[reference('x').name]"}]}
> NoValue /resources/1/name

{§,"variables":{"v":"[div(1, 0)]"},"resources":[]}
> NoValue /variables/v

{§,"languageVersion":"2.0","resources":{"s":{¤,"name":"[format('a{0}', copyIndex())]","copy":{"name":"l","count":2}},
"t":{¤,"name":"t","condition":"[reference('s').on]"}}}
> NoValue /resources/t/condition

{§,"parameters":{"p":{"type":"object","defaultValue":{}},"q":{"type":"string","defaultValue":"[parameters('p').x]"}},
"resources":[]}
> NoValue /parameters/q

{§,"parameters":{"p":{"type":"object","defaultValue":{}}},
"resources":[{¤,"name":"x","condition":"[parameters('p').x]"}]}
> NoValue /resources/0/condition

{§,"parameters":{"p":{"type":"object","defaultValue":{}}},
"resources":[{¤,"name":"x","copy":{"name":"l","count":"[parameters('p').x]"}}]}
> NoValue /resources/0/copy/count

{§,"parameters":{"p":{"type":"object","defaultValue":{}}},
"resources":[{¤,"name":"x","dependsOn":["[parameters('p').x]"]}]}
> NoValue /resources/0/dependsOn/0

{§,"resources":[{¶,"name":"m","properties":{«,"template":{§,"parameters":{"p":{"type":"object","defaultValue":{}}},
"variables":{"v":"[parameters('p').x]"},"resources":[]}}}]}
> NoValue /resources/0/properties/template/variables/v

{§,"resources":[{¶,"name":"m","properties":{«,"template":{§,"resources":[],
"outputs":{"o":{"type":"int","value":"[div(1, 0)]"}}}}}]}
> tasks enter / enter /0.0/ leave /0.0/ leave /
"#;

const LIMITS: &str = r#"{§,"resources":[{¤,"name":"[format('x{0}', copyIndex())]",
"copy":{"name":"l","count":801}}]}
> Limit Count 801

{§,"resources":[{¤,"name":"[format('x{0}', copyIndex())]",
"copy":{"name":"l","count":"[add(9223372036854775806, 1)]"}}]}
> Limit Count 9223372036854775807

{§,"resources":[{¤,"name":"[format('x{0}', copyIndex())]","copy":{"name":"l","count":9223372036854775807}}]}
> Limit Count 9223372036854775807

{§,"resources":[{¤,"name":"[format('x{0}', copyIndex())]","copy":{"name":"l","count":"[add(799, 1)]"}},
{¤,"name":"y"}]}
> Limit Resources 801

{§,"resources":[{¶,"name":"[format('m{0}', copyIndex())]","copy":{"name":"d","count":3},
"properties":{«,"parameters":{"n":{"value":"[copyIndex()]"}},"template":{§,"parameters":{"n":{"type":"int"}},
"resources":[{¤,"name":"[format('x{0}y{1}', parameters('n'), copyIndex())]","copy":{"name":"l","count":700}}]}}}]}
> Limit Instances 2001

{§,"resources":[{¤,"name":"[format('x{0}', copyIndex())]","copy":{"name":"l","count":"[sub(1, 1)]"}}]}
> tasks enter / leave /
"#;

const ONE_KEY: &str = r#"{§,"resources":[{¤,"name":"x"},{¤,"name":"X"}]}
> SameKey /resources/0 /resources/1

{§,"resources":[{¤,"name":"x","copy":{"name":"l","count":2}}]}
> SameKey /resources/0[0] /resources/0[1]

{§,"resources":[{¤,"name":"x","resources":[{"type":"d","apiVersion":"1","name":"k"}]},
{"type":"a.b/c/d","apiVersion":"1","name":"x/k"}]}
> SameKey /resources/0/resources/0 /resources/1

{§,"resources":[{¶,"name":"m","properties":{«,"template":{§,"resources":[]}}},
{¶,"name":"M","properties":{«,"template":{§,"resources":[]}}}]}
> SameKey /resources/0 /resources/1

{§,"resources":[{¤,"name":"x"},{¶,"name":"m","properties":{«,"template":{§,"resources":[{¤,"name":"x"}]}}}]}
> SameKey /resources/0 /resources/1/properties/template/resources/0

{§,"resources":[{¤,"name":"x"},{¤,"name":"x","condition":false}]}
> tasks enter / put /0.0 leave /

{§,"parameters":{"p":{"type":"bool","defaultValue":true}},"resources":[
{¤,"name":"x","condition":"[parameters('p')]"},{¤,"name":"x","condition":"[not(parameters('p'))]"}]}
> tasks enter / put /0.0 leave /

{§,"resources":[{¤,"name":"x","condition":true},{¤,"name":"x","condition":"[equals(1, 1)]"}]}
> SameKey /resources/0 /resources/1

{§,"resources":[{¶,"name":"m","properties":{«,"template":{§,"resources":[
{¶,"name":"m","properties":{«,"template":{§,"resources":[]}}}]}}}]}
> tasks enter / enter /0.0/ enter /0.0/0.0/ leave /0.0/0.0/ leave /0.0/ leave /
"#;

const CIRCLES: &str = r#"{§,"parameters":{"p":{"type":"string","defaultValue":"[parameters('q')]"},
"q":{"type":"string","defaultValue":"[parameters('p')]"}},"resources":[]}
> Circle /parameters/p /parameters/q or Circle /parameters/q /parameters/p

{§,"variables":{"v":"[variables('v')]"},"resources":[]}
> Circle /variables/v

{§,"variables":{"a":"[variables('b')]","b":"[concat(variables('a'), 'x')]"},"resources":[]}
> Circle /variables/a /variables/b or Circle /variables/b /variables/a

{§,"resources":[{¶,"name":"m","properties":{«,"template":{§,"variables":{"v":"[variables('v')]"},"resources":[]}}}]}
> Circle /resources/0/properties/template/variables/v
"#;

const RULES: &str =
    r#"{§,"parameters":{"p":{"type":"int","defaultValue":"[string(1)]"}},"resources":[]}
> Bind /parameters/p WrongType p

{§,"parameters":{"p":{"type":"string","defaultValue":"[concat('a')]","allowedValues":["b"]}},"resources":[]}
> Bind /parameters/p NotAllowed p

{§,"parameters":{"P":{"type":"int","defaultValue":"[add(1, 1)]","maxValue":1}},"resources":[]}
> Bind /parameters/P OutOfBounds P

{§,"resources":[{¤,"name":"x","condition":"[concat('true')]"}]}
> Bind /resources/0/condition WrongType condition

{§,"resources":[{¤,"name":"x","copy":{"name":"l","count":"[concat('1')]"}}]}
> Bind /resources/0/copy/count WrongType count

{§,"resources":[{¤,"name":"x","copy":{"name":"l","count":"[sub(0, 1)]"}}]}
> Bind /resources/0/copy/count OutOfBounds count

{§,"resources":[{¤,"name":"x","copy":{"name":"l","count":-1}}]}
> Bind /resources/0/copy/count OutOfBounds count

{§,"resources":[{¤,"name":"[add(1, 1)]"}]}
> Bind /resources/0/name WrongType name

{§,"resources":[{¶,"name":"m","properties":{«,"template":{§,"parameters":{"p":{"type":"string"}},"resources":[]}}}]}
> Bind /resources/0/properties/template/parameters/p MissingParameter p

{§,"resources":[{¶,"name":"m","properties":{«,"parameters":{"p":{"value":"[add(1, 1)]"}},
"template":{§,"parameters":{"p":{"type":"string"}},"resources":[]}}}]}
> Bind /resources/0/properties/template/parameters/p WrongType p

{§,"resources":[{¶,"name":"m","properties":{«,"parameters":{"q":{"value":1}},"template":{§,"resources":[]}}}]}
> Bind /resources/0/properties/parameters/q ExtraParameter q
"#;

const NAMES: &str = r#"{§,"resources":[{¤,"name":"x","dependsOn":["y"]}]}
> UnknownDependency /resources/0/dependsOn/0

{§,"resources":[{¤,"name":"x"},{¤,"name":"y","dependsOn":["x","[resourceId('a.b/c', 'z')]"]}]}
> UnknownDependency /resources/1/dependsOn/1

{§,"resources":[{¤,"name":"x"},{¤,"name":"y","dependsOn":["a.b/d/x"]}]}
> UnknownDependency /resources/1/dependsOn/0

{§,"resources":[{¤,"name":"2","dependsOn":["[add(1, 1)]"]}]}
> UnknownDependency /resources/0/dependsOn/0

{§,"resources":[{¤,"name":"x","resources":[{"type":"d","apiVersion":"1","name":"k","dependsOn":["k"]}]}]}
> UnknownDependency /resources/0/resources/0/dependsOn/0

{§,"resources":[{¤,"name":"x"},{¶,"name":"m","properties":{«,"template":{§,"resources":[
{¤,"name":"y","dependsOn":["x"]}]}}}]}
> UnknownDependency /resources/1/properties/template/resources/0/dependsOn/0

{§,"resources":[{¤,"name":"[format('a{0}', copyIndex())]","copy":{"name":"l","count":2}},
{¤,"name":"[format('b{0}', copyIndex())]","copy":{"name":"k","count":2},
"dependsOn":["[format('a{0}', copyIndex(1))]"]}]}
> UnknownDependency /resources/1/dependsOn/0

{§,"resources":[{¤,"name":"X"},{¤,"name":"y","dependsOn":["[resourceId('A.B/c', 'x')]","A.b/C/x","x"]}]}
> put /1.0 needs put /0.0

{§,"resources":[{¤,"name":"x","condition":false},{¤,"name":"y","dependsOn":["x","[resourceId('a.b/c', 'x')]"]}]}
> tasks enter / put /1.0 leave /

{§,"resources":[{¤,"name":"x","condition":false,"dependsOn":["y"]}]}
> tasks enter / leave /

{§,"resources":[{¤,"name":"[format('a{0}', copyIndex())]","copy":{"name":"l","count":"[sub(1, 1)]"}},
{¤,"name":"y","dependsOn":["L"]}]}
> tasks enter / put /1.0 leave /
"#;

const TWO_KEYS: &str =
    r#"{§,"resources":[{¤,"name":"x"},{"type":"a.b/d","apiVersion":"1","name":"X"},
{¤,"name":"y","dependsOn":["x"]}]}
> AmbiguousDependency /resources/2/dependsOn/0

{§,"resources":[{¤,"name":"x"},{"type":"a.b/d","apiVersion":"1","name":"x","condition":false},
{¤,"name":"y","dependsOn":["a.b/c/x","x"]}]}
> AmbiguousDependency /resources/2/dependsOn/1

{§,"resources":[{¤,"name":"x"},{"type":"a.b/d","apiVersion":"1","name":"x"},
{¤,"name":"y","dependsOn":["a.b/d/x"]}]}
> put /2.0 needs put /1.0
> no put /2.0 needs put /0.0

{§,"resources":[{¤,"name":"x"},{¶,"name":"m","properties":{«,"template":{§,"resources":[
{"type":"a.b/d","apiVersion":"1","name":"x"},{¤,"name":"y","dependsOn":["x"]}]}}}]}
> put /1.0/1.0 needs put /1.0/0.0

{§,"resources":[{¤,"name":"[format('a{0}', copyIndex())]","copy":{"name":"l","count":2}},{¤,"name":"l"},
{¤,"name":"y","dependsOn":["l"]}]}
> put /2.0 needs put /0.0
> put /2.0 needs put /0.1
> no put /2.0 needs put /1.0
"#;

const SYMBOLS: &str =
    r#"{§,"languageVersion":"2.0","resources":{"s":{¤,"name":"x"},"t":{¤,"name":"y","dependsOn":["x"]}}}
> UnknownDependency /resources/t/dependsOn/0

{§,"languageVersion":"2.0","resources":{"s":{¤,"name":"x","dependsOn":["nope"]}}}
> UnknownDependency /resources/s/dependsOn/0

{§,"languageVersion":"2.0","resources":{"s":{¤,"name":"x"},"t":{¤,"name":"y","dependsOn":["s","S"]}}}
> UnknownDependency /resources/t/dependsOn/1

{§,"languageVersion":"2.0","resources":{"s":{¤,"name":"[format('a{0}', copyIndex())]","copy":{"name":"l","count":2}},
"t":{¤,"name":"t","dependsOn":["s[2]"]}}}
> UnknownDependency /resources/t/dependsOn/0

{§,"languageVersion":"2.0","resources":{"s":{¤,"name":"[format('a{0}', copyIndex())]","copy":{"name":"l","count":2}},
"t":{¤,"name":"t","dependsOn":["l"]}}}
> UnknownDependency /resources/t/dependsOn/0

{§,"languageVersion":"2.0","resources":{"s":{¤,"name":"[format('a{0}', copyIndex())]",
"copy":{"name":"l","count":"[sub(1, 1)]"}},"t":{¤,"name":"t","dependsOn":["s"]}}}
> tasks enter / put /1.0 leave /
"#;

#[test]
fn refusals_by_values(rt: HostRuntime) -> Result<(), Fail> {
    check_all(rt.alloc(), &[NOT_KNOWN, NO_VALUE, RULES, CIRCLES, LIMITS])
}

#[test]
fn refusals_by_names(rt: HostRuntime) -> Result<(), Fail> {
    check_all(rt.alloc(), &[ONE_KEY, NAMES, TWO_KEYS, SYMBOLS])
}
